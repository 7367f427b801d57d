// The figures of one place of a stock, and what taking and giving back make of its use.
// What else a stock with a table does, it writes itself: a shared form would ask for `at` and `put` to save five short
// methods.
ghost use Rattle.std.specs.Prelude.{◌≡◌};
ghost use Rattle.stock.specs.Figures.{given_use, taken_use};

use crate::fault::StockFault;

#[derive(Clone, Copy)]
pub struct Figures {
    pub place: usize,
    pub capacity: u16,
    pub used: u16,
}

impl Figures {
    // The use with n more in use. Refused exactly when it would pass the capacity.
    pub fn taken(self, n: u16) -> Result<u16, StockFault>
        ensures { result ≡ taken_use self n }
    {
        self.used
            .checked_add(n)
            .filter(|used| *used <= self.capacity)
            .ok_or(StockFault::Full(self.place))
    }

    // The use with n given back. Refused exactly when n passes the use.
    pub fn given(self, n: u16) -> Result<u16, StockFault>
        ensures { result ≡ given_use self n }
    {
        self.used
            .checked_sub(n)
            .ok_or(StockFault::Lacking(self.place))
    }
}
