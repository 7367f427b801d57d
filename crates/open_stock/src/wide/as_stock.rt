// The open stock as a stock.
ghost use Rattle.std.specs.Prelude.{◌≡◌, ℕ, true, replicate};
ghost use Rattle.std.proofs.Common.{ap};
ghost use Rattle.open_stock.specs.Soundness.{wide_sound};
ghost use Rattle.open_stock.specs.Stands.{means};
ghost use Rattle.stock.specs.Calls.{exists, with_use};
ghost use Rattle.stock.specs.Figures.{figures_answer};
ghost use Rattle.stock.specs.Meaning.{most};

use crate::wide::OpenStock;
use stock::fault::StockFault;
use stock::figures::Figures;
use stock::stock::Stock;

impl OpenStock {
    // The figures of a place, if there is such a place.
    fn at(&self, place: usize) -> Result<Figures, StockFault>
        ensures { result ≡ figures_answer (means self.now) place }
    {
        let Some(&used) = self.uses[..self.size.places()].get(place) else {
            return Err(StockFault::NoPlace(place));
        };
        Ok(Figures {
            place,
            capacity: u16::MAX,
            used,
        })
    }

    // Another use at a place that exists.
    fn put(&mut self, place: usize, used: u16)
        requires { exists (means self.old) place ≡ true }
        ensures after { means self.new ≡ with_use (means self.old) place used }
        ensures sized { self.new.size.places ≡ self.old.size.places }
    {
        self.uses[place] = used;
    }
}

// The short methods stand in each stock: a shared form would ask for `at` and `put` to save five lines.
impl Stock for OpenStock {
    ghost meaning = { means };

    // The count of places.
    ghost Fixed = { ℕ };

    ghost fixed = { λ s. s.size.places };

    fn places(&self) -> usize {
        self.size.places()
    }

    fn capacity(&self, place: usize) -> Result<u16, StockFault> {
        Ok(self.at(place)?.capacity)
    }

    fn used(&self, place: usize) -> Result<u16, StockFault> {
        Ok(self.at(place)?.used)
    }

    fn take(&mut self, place: usize, n: u16) -> Result<(), StockFault> {
        let used = self.at(place)?.taken(n)?;
        self.put(place, used);
        Ok(())
    }

    fn give_back(&mut self, place: usize, n: u16) -> Result<(), StockFault> {
        let used = self.at(place)?.given(n)?;
        self.put(place, used);
        Ok(())
    }

    ghost sound = { λ s. wide_sound s.size.places s.uses s.size.few s.each s.small };

    ghost settled = { λ s t same. ap (λ n. replicate n most) same };
}
