// A question that any stock answers by its own two.
ghost use Rattle.std.specs.Prelude.{◌≡◌};
ghost use Rattle.refusal.specs.Told.{told_by};
ghost use Rattle.stock.specs.Calls.{question_refusal, spare_answer};
ghost use Rattle.stock.specs.Faults.{told};

use crate::fault::StockFault;
use crate::stock::Stock;

// What is left to take at a place: nothing where the use passes the capacity.
pub fn spare<S: Stock>(stock: &S, place: usize) -> Result<u16, StockFault>
    ensures answer { result ≡ spare_answer (S.meaning stock.now) place }
    ensures told { told_by told result ≡ question_refusal (S.meaning stock.now) place }
{
    let capacity = stock.capacity(place)?;
    let used = stock.used(place)?;
    Ok(capacity.saturating_sub(used))
}
