// The values of congestion: none above the ceiling can exist.
ghost use Rattle.std.specs.Prelude.{◌≤◌};
ghost use Rattle.congestion.specs.Price.{congestion_ceiling};

pub const CEILING: u64 = 999_999_999_999;

// A type of its own beside those of other kinds: one for all would take its eight bytes in every lent cell, and one that is
// generic in the number would need a trait of numbers that is longer than what it saves.
#[derive(Clone, Copy)]
pub struct Congestion {
    pub value: u64,
    ghost ok: { value ≤ congestion_ceiling },
}
