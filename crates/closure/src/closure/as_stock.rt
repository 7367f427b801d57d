// The closure as a stock.
#![tactic(auto, using(crate::proofs::Closures::count_closing, crate::proofs::Closures::capacity_closing))]

ghost use Rattle.std.specs.Prelude.{◌≡◌, Bool, List};
ghost use Rattle.std.proofs.Common.{ap};
ghost use Rattle.std.specs.Borrow.{GName};
ghost use Rattle.closure.specs.Closed.{closing};
ghost use Rattle.closure.specs.Soundness.{closing_settled, closing_sound};

use crate::closure::Closure;
use layer::take_below;
use stock::fault::StockFault;
use stock::stock::Stock;

// The calls that pass on stand in each layer: to share them would take one that lends the stock below, with a clause on it.
impl<'b, S: Stock> Stock for Closure<'b, S> {
    ghost meaning = { λ s. closing s.marks (S.Stock.meaning s.below.now) };

    // The marks, the stock that was lent, and what is fixed in it.
    ghost Fixed = { List Bool × GName × S.Stock.Fixed };

    ghost fixed = { λ s. (s.marks, s.below.ghost_name, S.Stock.fixed s.below.now) };

    fn places(&self) -> usize {
        self.below.places()
    }

    fn capacity(&self, place: usize) -> Result<u16, StockFault> {
        let capacity = self.below.capacity(place)?;
        Ok(if self.marks[place] { 0 } else { capacity })
    }

    fn used(&self, place: usize) -> Result<u16, StockFault> {
        self.below.used(place)
    }

    fn take(&mut self, place: usize, n: u16) -> Result<(), StockFault> {
        let told = self.capacity(place)?;
        take_below(self.below, told, place, n)
    }

    fn give_back(&mut self, place: usize, n: u16) -> Result<(), StockFault> {
        self.below.give_back(place, n)
    }

    ghost sound = { λ s. closing_sound s.marks (S.Stock.meaning s.below.now) (S.Stock.sound s.below.now) };

    ghost settled = { λ s t same. closing_settled (ap (λ f. f.0) same) (S.Stock.settled s.below.now t.below.now (ap (λ f. f.2) same)) };
}
