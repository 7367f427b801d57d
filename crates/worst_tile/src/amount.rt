// The values of worst tile: none above the ceiling can exist.
ghost use Rattle.std.specs.Prelude.{◌≤◌};
ghost use Rattle.worst_tile.specs.Price.{worst_tile_ceiling};

pub const CEILING: u16 = 1000;

// A type of its own beside those of other kinds: a host lends two bytes for its cell, where one for all would ask for eight,
// and its sum is the larger of two.
#[derive(Clone, Copy)]
pub struct WorstTile {
    pub value: u16,
    ghost ok: { value ≤ worst_tile_ceiling },
}
