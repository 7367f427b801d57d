// What every stock is.
ghost use Rattle.std.specs.Prelude.{◌≡◌};
ghost use Rattle.refusal.specs.Told.{told_by};
ghost use Rattle.stock.specs.Calls.{capacity_answer, used_answer, take_answer, take_after, take_refusal, give_answer, give_after, give_refusal, question_refusal};
ghost use Rattle.stock.specs.Faults.{told};
ghost use Rattle.stock.specs.Meaning.{Meaning, Sound, count};

use crate::fault::StockFault;

// Each call is pinned by what the stock means before it. Questions and refused calls change nothing.
pub trait Stock {
    ghost meaning: { Self → Meaning };

    // What no call of this trait changes. The capacities told rest on nothing else. It also holds which tables were
    // lent, so that whoever lends one to a stock, or a stock to a layer, knows afterwards what it holds.
    ghost Fixed: { Type 0 };

    ghost fixed: { Self → Fixed };

    // The count of places.
    fn places(&self) -> usize
        ensures { result ≡ count (meaning self.now) };

    fn capacity(&self, place: usize) -> Result<u16, StockFault>
        ensures answer { result ≡ capacity_answer (meaning self.now) place }
        ensures told { told_by told result ≡ question_refusal (meaning self.now) place };

    fn used(&self, place: usize) -> Result<u16, StockFault>
        ensures answer { result ≡ used_answer (meaning self.now) place }
        ensures told { told_by told result ≡ question_refusal (meaning self.now) place };

    // Refused exactly when the use would pass the capacity.
    fn take(&mut self, place: usize, n: u16) -> Result<(), StockFault>
        ensures answer { result ≡ take_answer (meaning self.old) place n }
        ensures told { told_by told result ≡ take_refusal (meaning self.old) place n }
        ensures after { meaning self.new ≡ take_after (meaning self.old) place n }
        ensures kept { fixed self.new ≡ fixed self.old };

    // Refused exactly when n passes the use.
    fn give_back(&mut self, place: usize, n: u16) -> Result<(), StockFault>
        ensures answer { result ≡ give_answer (meaning self.old) place n }
        ensures told { told_by told result ≡ give_refusal (meaning self.old) place n }
        ensures after { meaning self.new ≡ give_after (meaning self.old) place n }
        ensures kept { fixed self.new ≡ fixed self.old };

    // Laws of every stock: its meaning is sound, and its capacities rest on nothing but what is fixed.
    ghost sound: { (s : Self) → Sound (meaning s) };

    ghost settled: { (s t : Self) → fixed s ≡ fixed t → (meaning s).capacities ≡ (meaning t).capacities };
}
