// One place of a table.
ghost use Rattle.std.specs.Prelude.{◌≤◌};

// A capacity and a use. That both fit 16 bits stands in the type, since what a stock means rests on it.
#[derive(Clone, Copy)]
pub struct Place {
    pub capacity: u16,
    pub used: u16,
    ghost fits: { (capacity ≤ 65535) × (used ≤ 65535) },
}
