// Making and reading a size.
ghost use Rattle.std.specs.Prelude.{◌≡◌, MatchResult};
ghost use Rattle.refusal.specs.Told.{told_by};
ghost use Rattle.stock.specs.Faults.{told};
ghost use Rattle.stock.specs.Making.{size_refusal};
ghost use Rattle.stock.specs.declared.fault.StockFault.TheVariants.{TooLarge};

use crate::fault::StockFault;
use crate::size::{MOST_PLACES, Size};

impl Size {
    // Refused above 8,192 places, with the figure. By name, where a `TryFrom` would not say that a size is meant.
    pub fn new(places: usize) -> Result<Size, StockFault>
        ensures answer { MatchResult result (λ s. s.places ≡ places) (λ f. f ≡ TooLarge places) }
        ensures told { told_by told result ≡ size_refusal places }
    {
        if places > MOST_PLACES {
            return Err(StockFault::TooLarge(places));
        }
        Ok(Size { places })
    }

    pub fn places(self) -> usize
        ensures { result ≡ self.places }
    {
        self.places
    }
}
