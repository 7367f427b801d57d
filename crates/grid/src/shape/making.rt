// Making a grid, and asking for its sides.
ghost use Rattle.std.specs.Prelude.{◌≡◌, Some};
ghost use Rattle.refusal.specs.Told.{told_by};
ghost use Rattle.grid.specs.Making.{sides_of, made, grid_refusal, shown, told};

use crate::shape::{Grid, GridFault};
use std::error::Error;
use std::fmt;

// The most rows, and the most columns.
const MOST: usize = 64;

impl Grid {
    // A grid of these sides. Refused with 1 and the rows outside 1 to 64, else the columns.
    pub fn new(rows: usize, columns: usize) -> Result<Grid, GridFault>
        ensures answer { sides_of result ≡ made rows columns }
        ensures told { told_by told result ≡ grid_refusal rows columns }
    {
        if !(1..=MOST).contains(&rows) {
            return Err(GridFault::Rows(rows));
        }
        if !(1..=MOST).contains(&columns) {
            return Err(GridFault::Columns(columns));
        }
        Ok(Grid { rows, columns })
    }

    pub fn rows(self) -> usize
        ensures { result ≡ self.rows }
    {
        self.rows
    }

    pub fn columns(self) -> usize
        ensures { result ≡ self.columns }
    {
        self.columns
    }
}

impl fmt::Display for GridFault {
    ghost output = { λ f. Some (shown f) };

    fn fmt<W: fmt::Write>(&self, f: &mut fmt::Formatter<W>) -> fmt::Result {
        match self {
            GridFault::Rows(n) | GridFault::Columns(n) => write!(f, "refused with 1 and {n}"),
        }
    }
}

impl Error for GridFault {}
