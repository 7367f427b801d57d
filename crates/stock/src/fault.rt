// The refusals of stocks and of making them.
ghost use Rattle.std.specs.Prelude.{◌≡◌, Some};
ghost use Rattle.stock.specs.Faults.{shown, told};
ghost use Rattle.refusal.specs.Told.{number_in, value_in};

use std::error::Error;
use std::fmt;

#[derive(Clone, Copy, PartialEq, Eq, Debug)]
pub enum StockFault {
    // There is no such place.
    NoPlace(usize),
    // A taking would pass the place's capacity.
    Full(usize),
    // A giving would pass the place's use.
    Lacking(usize),
    // A figure lies above what can be made.
    TooLarge(usize),
}

impl StockFault {
    // The refusal's number. Hosts are told refusals by number: each has its own by the rules.
    pub fn number(self) -> u16
        ensures { result ≡ number_in (told self) }
    {
        match self {
            StockFault::NoPlace(_) => 31,
            StockFault::Full(_) => 32,
            StockFault::Lacking(_) => 33,
            StockFault::TooLarge(_) => 34,
        }
    }

    // The value that it returns: the place, or the figure.
    pub fn value(self) -> usize
        ensures { result ≡ value_in (told self) }
    {
        match self {
            StockFault::NoPlace(value)
            | StockFault::Full(value)
            | StockFault::Lacking(value)
            | StockFault::TooLarge(value) => value,
        }
    }
}

impl fmt::Display for StockFault {
    ghost output = { λ f. Some (shown f) };

    fn fmt<W: fmt::Write>(&self, f: &mut fmt::Formatter<W>) -> fmt::Result {
        write!(f, "refused with {} and {}", self.number(), self.value())
    }
}

impl Error for StockFault {}
