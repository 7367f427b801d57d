// Making a counted stock over a lent table.
ghost use Rattle.std.specs.Prelude.{◌≡◌, length, map, MatchResult};
ghost use Rattle.counted.specs.Table.{cleared, unused};
ghost use Rattle.refusal.specs.Told.{told_by};
ghost use Rattle.stock.specs.Faults.{told};
ghost use Rattle.stock.specs.Making.{size_refusal};
ghost use Rattle.stock.specs.declared.fault.StockFault.TheVariants.{TooLarge};

use crate::place::Place;
use stock::fault::StockFault;
use stock::size::Size;

pub mod as_stock;

// A stock on the first places of a lent table, as many as its size says, on all of them where the table has fewer.
#[derive(Drop)]
pub struct Counted<'a> {
    table: &'a mut [Place],
    size: Size,
}

impl<'a> Counted<'a> {
    // The size of a whole table. Refused above 8,192 places, with their number.
    pub fn size_of(table: &[Place]) -> Result<Size, StockFault>
        ensures answer { MatchResult result (λ s. s.places ≡ length table.now) (λ f. f ≡ TooLarge (length table.now)) }
        ensures told { told_by told result ≡ size_refusal (length table.now) }
    {
        Size::new(table.len())
    }

    // The stock with the capacities that the table holds, and nothing in use.
    pub fn new(table: &'a mut [Place], size: Size) -> Counted<'a>
        ensures holds { result.table.now ≡ cleared size.places table.old }
        ensures lender { result.table.ghost_name ≡ table.entry.ghost_name }
        ensures sized { result.size ≡ size }
    {
        let count = table.len().min(size.places());
        clear(&mut table[..count]);
        Counted::again(table, size)
    }

    // The stock over the table as it stands, with the capacities and uses that it holds.
    pub fn again(table: &'a mut [Place], size: Size) -> Counted<'a>
        ensures holds { result.table.now ≡ table.old }
        ensures lender { result.table.ghost_name ≡ table.entry.ghost_name }
        ensures sized { result.size ≡ size }
    {
        Counted { table, size }
    }
}

// Nothing in use at these places.
fn clear(places: &mut [Place])
    ensures { places.new ≡ map unused places.old }
{
    for place in places.iter_mut() {
        place.used = 0;
    }
}
