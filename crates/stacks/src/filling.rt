// Taking all that is spare at a place of any stock.
ghost use Rattle.std.specs.Prelude.{◌≡◌};
ghost use Rattle.refusal.specs.Told.{told_by};
ghost use Rattle.stacks.specs.Filling.{filled};
ghost use Rattle.stock.specs.Calls.{question_refusal, spare_answer};
ghost use Rattle.stock.specs.Faults.{told};

use stock::fault::StockFault;
use stock::questions::spare;
use stock::stock::Stock;

// Answers how much was taken: nothing where the use passes the capacity.
#[tactic(auto, using(crate::proofs::Fills::nothing_spare))]
pub fn take_spare<S: Stock>(stock: &mut S, place: usize) -> Result<u16, StockFault>
    ensures answer { result ≡ spare_answer (S.meaning stock.old) place }
    ensures told { told_by told result ≡ question_refusal (S.meaning stock.old) place }
    ensures after { S.meaning stock.new ≡ filled (S.meaning stock.old) place }
    ensures kept { S.fixed stock.new ≡ S.fixed stock.old }
{
    let spare = spare(stock, place)?;
    if spare == 0 {
        return Ok(0);
    }
    stock.take(place, spare)?;
    Ok(spare)
}
