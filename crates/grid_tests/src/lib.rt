// Figures of grids: one tile, a strip of four, two rows of three, and the corners of the largest grid.
#![tactic(auto)]

#[cfg(test)]
mod tests {
    use grid::shape::{Grid, GridFault};
    use std::test::Fail;

    #[test]
    fn sides_are_refused(rt: HostRuntime) {
        assert_eq!(rt; Grid::new(0, 0).err(), Some(GridFault::Rows(0)));
        assert_eq!(rt; Grid::new(65, 0).err(), Some(GridFault::Rows(65)));
        assert_eq!(rt; Grid::new(64, 0).err(), Some(GridFault::Columns(0)));
        assert_eq!(rt; Grid::new(1, 65).err(), Some(GridFault::Columns(65)));
        assert_eq!(rt; Grid::new(1, 1).err(), None);
    }

    #[test]
    fn one_tile(rt: HostRuntime) -> Result<(), Fail> {
        let grid = Grid::new(1, 1)?;
        assert_eq!(rt; (grid.tile_count(), grid.boundary_count()), (1, 0));
        assert_eq!(rt; grid.place(0), Some((0, 0)));
        assert_eq!(rt; grid.place(1), None);
        assert!(rt; !grid.neighbours(0, 0));
        assert_eq!(rt; grid.boundary_between(0, 1), None);
        Ok(())
    }

    #[test]
    fn strip_of_four(rt: HostRuntime) -> Result<(), Fail> {
        let grid = Grid::new(1, 4)?;
        assert_eq!(rt; (grid.tile_count(), grid.boundary_count()), (4, 3));
        assert_eq!(rt; grid.boundary_between(2, 3), Some(2));
        assert_eq!(rt; grid.boundary_between(3, 2), Some(2));
        assert_eq!(rt; grid.boundary_between(1, 3), None);
        assert_eq!(rt; grid.boundary_between(3, 4), None);
        Ok(())
    }

    #[test]
    fn two_rows_of_three(rt: HostRuntime) -> Result<(), Fail> {
        let grid = Grid::new(2, 3)?;
        assert_eq!(rt; (grid.rows(), grid.columns()), (2, 3));
        assert_eq!(rt; (grid.tile_count(), grid.boundary_count()), (6, 7));
        assert_eq!(rt; grid.tile(1, 1), Some(4));
        assert_eq!(rt; grid.tile(1, 3), None);
        assert_eq!(rt; grid.boundary_between(4, 5), Some(3));
        assert_eq!(rt; grid.boundary_between(5, 2), Some(6));
        assert!(rt;
            !grid.neighbours(2, 3),
            "the end of a row and the start of the next"
        );
        Ok(())
    }

    #[test]
    fn largest_grid(rt: HostRuntime) -> Result<(), Fail> {
        let grid = Grid::new(64, 64)?;
        assert_eq!(rt; (grid.tile_count(), grid.boundary_count()), (4096, 8064));
        assert_eq!(rt; grid.place(4095), Some((63, 63)));
        assert_eq!(rt; grid.place(4096), None);
        assert_eq!(rt; grid.boundary_between(4094, 4095), Some(4031));
        assert_eq!(rt; grid.boundary_between(4031, 4095), Some(8063));
        Ok(())
    }
}
