// What layers share. A layer is a stock that stands on another, tells the use below it as its own, and tells
// capacities of its own, none larger.
//
// The crate says what such a layer means and how it takes. It uses the crates `refusal` and `stock`.
#![tactic(auto)]

ghost use Rattle.std.specs.Prelude.{◌≡◌};
ghost use Rattle.layer.specs.Lowered.{taken_after, taken_answer, taken_refusal};
ghost use Rattle.refusal.specs.Told.{told_by};
ghost use Rattle.stock.specs.Faults.{told};

use stock::fault::StockFault;
use stock::figures::Figures;
use stock::stock::Stock;

// Each layer passes its other calls on itself: to share four one-line methods would take one that lends the stock below,
// with a clause on that loan.

// Takes n at a place below, where the layer tells this capacity. Refused where the use would pass the capacity told,
// or the capacity below.
pub fn take_below<S: Stock>(
    below: &mut S,
    capacity: u16,
    place: usize,
    n: u16,
) -> Result<(), StockFault>
    ensures answer { result ≡ taken_answer capacity (S.meaning below.old) place n }
    ensures told { told_by told result ≡ taken_refusal capacity (S.meaning below.old) place n }
    ensures after { S.meaning below.new ≡ taken_after capacity (S.meaning below.old) place n }
    ensures kept { S.fixed below.new ≡ S.fixed below.old }
{
    let used = below.used(place)?;
    let told = Figures {
        place,
        capacity,
        used,
    };
    told.taken(n)?;
    below.take(place, n)
}
