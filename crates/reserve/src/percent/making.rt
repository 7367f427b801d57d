// Making and reading a percentage.
ghost use Rattle.std.specs.Prelude.{◌≡◌, MatchResult};
ghost use Rattle.reserve.specs.Reserved.{percent_refusal};
ghost use Rattle.refusal.specs.Told.{told_by};
ghost use Rattle.stock.specs.Faults.{told};
ghost use Rattle.stock.specs.declared.fault.StockFault.TheVariants.{TooLarge};

use crate::percent::Percent;
use stock::fault::StockFault;

const ALL: usize = 100;

impl Percent {
    // Refused above 100, with the figure. By name, where a `TryFrom` would not say that a percentage is meant.
    pub fn new(figure: usize) -> Result<Percent, StockFault>
        ensures answer { MatchResult result (λ p. p.value ≡ figure) (λ f. f ≡ TooLarge figure) }
        ensures told { told_by told result ≡ percent_refusal figure }
    {
        if figure > ALL {
            return Err(StockFault::TooLarge(figure));
        }
        Ok(Percent {
            value: figure as u8,
        })
    }

    pub fn value(self) -> u8
        ensures { result ≡ self.value }
    {
        self.value
    }
}
