// The size of a stock.
ghost use Rattle.std.specs.Prelude.{◌≤◌};

pub mod making;

// The most places that a stock can have.
pub const MOST_PLACES: usize = 8192;

// How many places a stock is to have: 0 to 8,192, and no other size exists.
#[derive(Clone, Copy)]
pub struct Size {
    places: usize,
    ghost few: { places ≤ 8192 },
}
