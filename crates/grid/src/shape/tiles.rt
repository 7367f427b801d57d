// Tiles by number and by place.
ghost use Rattle.std.specs.Prelude.{◌≡◌};
ghost use Rattle.grid.specs.Tiles.{tile_count, number_told, place_told, NumberTellsPlace, PlaceTellsNumber};

use crate::shape::Grid;

impl Grid {
    // How many tiles there are; their numbers lie below this.
    pub fn tile_count(self) -> usize
        ensures { result ≡ tile_count self }
    {
        self.rows * self.columns
    }

    // The number of the tile in this row and column, or None where the grid has no such place.
    #[tactic(auto, using(crate::proofs::Numbering::number_tells_place))]
    pub fn tile(self, row: usize, column: usize) -> Option<usize>
        ensures answer { result ≡ number_told self (row, column) }
        ensures inverse { NumberTellsPlace self }
    {
        (row < self.rows && column < self.columns).then(|| row * self.columns + column)
    }

    // The row and the column of this tile, or None where the grid has no such tile.
    pub fn place(self, tile: usize) -> Option<(usize, usize)>
        ensures answer { result ≡ place_told self tile }
        ensures inverse { PlaceTellsNumber self }
    {
        (tile < self.tile_count()).then_some((tile / self.columns, tile % self.columns))
    }
}
