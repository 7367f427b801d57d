// The closure: tells no capacity where a place is closed.
ghost use Rattle.std.specs.Prelude.{◌≡◌, Bool, true, false, length, replicate};
ghost use Rattle.closure.specs.Closed.{mark_after, mark_answer};
ghost use Rattle.refusal.specs.Told.{told_by};
ghost use Rattle.stock.specs.Calls.{question_refusal};
ghost use Rattle.stock.specs.Faults.{told};

use stock::fault::StockFault;
use stock::size::MOST_PLACES;
use stock::stock::Stock;

pub mod as_stock;

// A mark for each of as many places as a stock can have, since nothing is allocated: closed where it is set.
#[derive(Drop)]
pub struct Closure<'b, S> {
    below: &'b mut S,
    marks: [bool; MOST_PLACES],
    ghost each: { length marks ≡ 8192 },
}

impl<'b, S: Stock> Closure<'b, S> {
    // All places are open at first.
    pub fn new(below: &'b mut S) -> Closure<'b, S>
        ensures holds { result.below.now ≡ below.old }
        ensures lender { result.below.ghost_name ≡ below.entry.ghost_name }
        ensures marked { result.marks ≡ replicate 8192 false }
    {
        Closure {
            below,
            marks: [false; MOST_PLACES],
        }
    }

    // Refused exactly when the stock below has no such place. One call with a flag for closing and opening would be no
    // plainer: `mark(3, true)` does not say which it does.
    pub fn close(&mut self, place: usize) -> Result<(), StockFault>
        ensures answer { result ≡ mark_answer (S.Stock.meaning self.old.below.now) place }
        ensures told { told_by told result ≡ question_refusal (S.Stock.meaning self.old.below.now) place }
        ensures after { self.new.marks ≡ mark_after (S.Stock.meaning self.old.below.now) self.old.marks place true }
        ensures same { self.new.below.now ≡ self.old.below.now }
        ensures lender { self.new.below.ghost_name ≡ self.old.below.ghost_name }
    {
        self.below.capacity(place)?;
        self.marks[place] = true;
        Ok(())
    }

    // Refused exactly when the stock below has no such place.
    pub fn reopen(&mut self, place: usize) -> Result<(), StockFault>
        ensures answer { result ≡ mark_answer (S.Stock.meaning self.old.below.now) place }
        ensures told { told_by told result ≡ question_refusal (S.Stock.meaning self.old.below.now) place }
        ensures after { self.new.marks ≡ mark_after (S.Stock.meaning self.old.below.now) self.old.marks place false }
        ensures same { self.new.below.now ≡ self.old.below.now }
        ensures lender { self.new.below.ghost_name ≡ self.old.below.ghost_name }
    {
        self.below.capacity(place)?;
        self.marks[place] = false;
        Ok(())
    }
}
