// The length limit of a net.
ghost use Rattle.std.specs.Prelude.{◌≤◌};
ghost use Rattle.net.specs.Largest.{largest_limit};

pub mod limiting;

// How much a gate of the net may drive: 1 to the largest limit, and no value can have another. It shares no type with
// other bounded numbers, so that none of them passes for a limit.
#[derive(Clone, Copy)]
pub struct Limit {
    value: u8,
    ghost some: { 1 ≤ value },
    ghost fits: { value ≤ largest_limit },
}

// Why a limit was not made: the figure lies outside. No program prints it, so it has no `Display`.
#[derive(Clone, Copy, PartialEq, Eq, Debug)]
pub enum LimitFault {
    Outside(usize),
}
