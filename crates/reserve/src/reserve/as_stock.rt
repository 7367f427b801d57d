// The reserve as a stock.
#![tactic(auto, using(crate::proofs::Reserves::count_reserved, crate::proofs::Reserves::capacity_reserved))]

ghost use Rattle.std.specs.Prelude.{◌≡◌, ℕ};
ghost use Rattle.std.proofs.Common.{ap};
ghost use Rattle.std.specs.Borrow.{GName};
ghost use Rattle.reserve.specs.Reserved.{reserved};
ghost use Rattle.reserve.specs.Soundness.{reserved_settled, reserved_sound};

use crate::reserve::{Reserve, left_of};
use layer::take_below;
use stock::fault::StockFault;
use stock::stock::Stock;

// The calls that pass on stand in each layer: to share them would take one that lends the stock below, with a clause on it.
impl<'b, S: Stock> Stock for Reserve<'b, S> {
    ghost meaning = { λ s. reserved s.percent.value (S.Stock.meaning s.below.now) };

    // The percentage, the stock that was lent, and what is fixed in it.
    ghost Fixed = { ℕ × GName × S.Stock.Fixed };

    ghost fixed = { λ s. (s.percent.value, s.below.ghost_name, S.Stock.fixed s.below.now) };

    fn places(&self) -> usize {
        self.below.places()
    }

    fn capacity(&self, place: usize) -> Result<u16, StockFault> {
        let capacity = self.below.capacity(place)?;
        Ok(left_of(self.percent, capacity))
    }

    fn used(&self, place: usize) -> Result<u16, StockFault> {
        self.below.used(place)
    }

    fn take(&mut self, place: usize, n: u16) -> Result<(), StockFault> {
        let told = self.capacity(place)?;
        take_below(self.below, told, place, n)
    }

    fn give_back(&mut self, place: usize, n: u16) -> Result<(), StockFault> {
        self.below.give_back(place, n)
    }

    ghost sound = { λ s. reserved_sound s.percent.value (S.Stock.meaning s.below.now) (S.Stock.sound s.below.now) };

    ghost settled = { λ s t same. reserved_settled (ap (λ f. f.0) same) (S.Stock.settled s.below.now t.below.now (ap (λ f. f.2) same)) };
}
