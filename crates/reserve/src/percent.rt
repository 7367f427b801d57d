// A percentage.
ghost use Rattle.std.specs.Prelude.{◌≤◌};

pub mod making;

// From 0 to 100, and no other exists.
// A type of its own beside the sizes of stocks, so that neither passes for the other; all that they share is the test of a
// bound.
#[derive(Clone, Copy)]
pub struct Percent {
    value: u8,
    ghost whole: { value ≤ 100 },
}
