// The type of grids. The functions on it stand in the modules below, which see its fields.
ghost use Rattle.std.specs.Prelude.{◌≤◌};

pub mod boundaries;
pub mod making;
pub mod tiles;

// So many rows and columns of tiles: 1 to 64 of each, and no value can have others.
#[derive(Clone, Copy)]
pub struct Grid {
    rows: usize,
    columns: usize,
    ghost some_rows: { 1 ≤ rows },
    ghost rows_fit: { rows ≤ 64 },
    ghost some_columns: { 1 ≤ columns },
    ghost columns_fit: { columns ≤ 64 },
}

// Why a grid was not made: the rows, or else the columns, that lie outside 1 to 64.
#[derive(Clone, Copy, PartialEq, Eq, Debug)]
pub enum GridFault {
    Rows(usize),
    Columns(usize),
}
