// Making a route, and reading it.
ghost use Rattle.std.specs.Prelude.{◌≡◌, ◌≤◌, length, take, is_ok, Decides};
ghost use Rattle.refusal.specs.Told.{told_by};
ghost use Rattle.net.specs.Proper.{Proper};
ghost use Rattle.net.specs.Routes.{told, route_refusal, record_told};
ghost use Rattle.net.specs.Checked.{records_of, parts_of, route_checked};

use crate::records::record::{Record, RouteFault};
use crate::records::scan::check_records;
use crate::records::{MOST_RECORDS, Route};
use grid::shape::Grid;

// The places of a route, with these records in the first of them.
fn placed(records: &[Record]) -> [Record; MOST_RECORDS]
    requires { length records.now ≤ 256 }
    ensures { take (length records.now) result ≡ records.now }
{
    let mut places = [Record::default(); MOST_RECORDS];
    places[..records.len()].copy_from_slice(records);
    places
}

impl Route {
    // The route of these records. Refused with 7 and how many there are outside 1 to 256; then at the lowest index
    // with 8 off the grid, 9 for the parent, 10 away from the parent's tile, 11 on a tile of an earlier index; then
    // with 12 at the lowest index that has neither child nor sink.
    pub fn check(grid: Grid, records: &[Record]) -> Result<Route, RouteFault>
        ensures answer { parts_of result ≡ route_checked grid records.now }
        ensures told { told_by told result ≡ route_refusal grid records.now }
        ensures exactly { Decides (is_ok result) (Proper grid records.now) }
    {
        check_records(grid, records)?;
        Ok(Route {
            grid,
            count: records.len(),
            records: placed(records),
        })
    }

    // The records, one for each index.
    pub fn records(&self) -> &[Record]
        ensures { result.now ≡ records_of self.now }
    {
        &self.records[..self.count]
    }

    pub fn grid(&self) -> Grid
        ensures { result ≡ self.now.grid }
    {
        self.grid
    }
}
