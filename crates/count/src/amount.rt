// The values of count: none above the ceiling can exist.
ghost use Rattle.std.specs.Prelude.{◌≤◌};
ghost use Rattle.count.specs.Price.{count_ceiling};

pub const CEILING: u16 = 65_535;

// A type of its own beside those of other kinds: a host lends two bytes for its cell, where one for all would ask for eight,
// and one that is generic in the number would need a trait of numbers that is longer than what it saves.
#[derive(Clone, Copy)]
pub struct Count {
    pub value: u16,
    ghost ok: { value ≤ count_ceiling },
}
