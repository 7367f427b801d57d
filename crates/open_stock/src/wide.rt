// Making an open stock.
ghost use Rattle.std.specs.Prelude.{◌≡◌, ℕ, ◌≤◌, length, replicate, slice_index, MatchResult};
ghost use Rattle.refusal.specs.Told.{told_by};
ghost use Rattle.stock.specs.Faults.{told};
ghost use Rattle.stock.specs.Making.{size_refusal};
ghost use Rattle.stock.specs.declared.fault.StockFault.TheVariants.{TooLarge};

use stock::fault::StockFault;
use stock::size::{MOST_PLACES, Size};

pub mod as_stock;

// A use for each of as many places as a stock can have, since nothing is allocated; the first ones are the stock's. That
// each use fits 16 bits stands in the type, since what the stock means rests on it.
#[derive(Drop)]
pub struct OpenStock {
    size: Size,
    uses: [u16; MOST_PLACES],
    ghost each: { length uses ≡ 8192 },
    ghost small: { (place : ℕ) → slice_index uses place ≤ 65535 },
}

impl OpenStock {
    // Nothing is in use at first. Refused above 8,192 places, with the figure.
    pub fn new(places: usize) -> Result<OpenStock, StockFault>
        ensures answer { MatchResult result (λ s. (s.size.places ≡ places) × (s.uses ≡ replicate 8192 0)) (λ f. f ≡ TooLarge places) }
        ensures told { told_by told result ≡ size_refusal places }
    {
        let size = Size::new(places)?;
        Ok(OpenStock {
            size,
            uses: [0; MOST_PLACES],
        })
    }
}
