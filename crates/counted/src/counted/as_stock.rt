// The counted stock as a stock.
ghost use Rattle.std.specs.Prelude.{◌≡◌, ℕ, true, List};
ghost use Rattle.std.proofs.Common.{ap};
ghost use Rattle.std.specs.Borrow.{GName};
ghost use Rattle.counted.specs.Soundness.{table_sound};
ghost use Rattle.counted.specs.Stands.{leaves, means, stands_on};
ghost use Rattle.counted.specs.declared.place.Place.{Place};
ghost use Rattle.stock.specs.Calls.{exists, with_use};
ghost use Rattle.stock.specs.Figures.{figures_answer};

use crate::counted::Counted;
use crate::place::Place;
use stock::fault::StockFault;
use stock::figures::Figures;
use stock::stock::Stock;

impl<'a> Counted<'a> {
    // The places of its table that it stands on.
    fn stands_on(&self) -> &[Place]
        ensures { result.now ≡ stands_on self.now }
    {
        let count = self.table.len().min(self.size.places());
        &self.table[..count]
    }

    // The figures of a place, if there is such a place.
    fn at(&self, place: usize) -> Result<Figures, StockFault>
        ensures { result ≡ figures_answer (means self.now) place }
    {
        let Some(&Place { capacity, used }) = self.stands_on().get(place) else {
            return Err(StockFault::NoPlace(place));
        };
        Ok(Figures {
            place,
            capacity,
            used,
        })
    }

    // Another use at a place that exists.
    fn put(&mut self, place: usize, used: u16)
        requires { exists (means self.old) place ≡ true }
        ensures after { means self.new ≡ with_use (means self.old) place used }
        ensures past { leaves self.new ≡ leaves self.old }
        ensures sized { self.new.size.places ≡ self.old.size.places }
        ensures lender { self.new.table.ghost_name ≡ self.old.table.ghost_name }
    {
        self.table[place].used = used;
    }
}

// The short methods stand in each stock: a shared form would ask for `at` and `put` to save five lines.
impl<'a> Stock for Counted<'a> {
    ghost meaning = { means };

    // The table that was lent, the size, the capacities, and the places past them.
    ghost Fixed = { GName × ℕ × List ℕ × List Place };

    ghost fixed = { λ s. (s.table.ghost_name, s.size.places, (means s).capacities, leaves s) };

    fn places(&self) -> usize {
        self.stands_on().len()
    }

    fn capacity(&self, place: usize) -> Result<u16, StockFault> {
        Ok(self.at(place)?.capacity)
    }

    fn used(&self, place: usize) -> Result<u16, StockFault> {
        Ok(self.at(place)?.used)
    }

    fn take(&mut self, place: usize, n: u16) -> Result<(), StockFault> {
        let used = self.at(place)?.taken(n)?;
        self.put(place, used);
        Ok(())
    }

    fn give_back(&mut self, place: usize, n: u16) -> Result<(), StockFault> {
        let used = self.at(place)?.given(n)?;
        self.put(place, used);
        Ok(())
    }

    ghost sound = { λ s. table_sound s.size.places s.table.now s.size.few };

    ghost settled = { λ s t same. ap (λ f. f.2) same };
}
