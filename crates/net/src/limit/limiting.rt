// Making a limit, and asking for its figure.
ghost use Rattle.std.specs.Prelude.{◌≡◌};
ghost use Rattle.refusal.specs.Told.{told_by};
ghost use Rattle.net.specs.Limits.{figure_of, limited, limit_refusal, told};

use crate::limit::{Limit, LimitFault};

impl Limit {
    // The largest limit that there is.
    pub const LARGEST: usize = 16;

    // The limit of this figure; by name, where a `TryFrom` would not say that a limit is meant. Refused with 6 and the figure outside 1 to the largest.
    pub fn new(figure: usize) -> Result<Limit, LimitFault>
        ensures answer { figure_of result ≡ limited figure }
        ensures told { told_by told result ≡ limit_refusal figure }
    {
        if !(1..=Limit::LARGEST).contains(&figure) {
            return Err(LimitFault::Outside(figure));
        }
        Ok(Limit {
            value: figure as u8,
        })
    }

    pub fn figure(self) -> usize
        ensures { result ≡ self.value }
    {
        usize::from(self.value)
    }
}
