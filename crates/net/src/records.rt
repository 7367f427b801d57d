// The records of a net, and the route that the check makes of them.
ghost use Rattle.std.specs.Prelude.{◌≡◌, ◌≤◌, true, length, take};
ghost use Rattle.net.specs.Routes.{is_route};

pub mod checking;
pub mod record;
mod scan;

use crate::records::record::Record;
use grid::shape::Grid;

// The most records that a net has.
pub const MOST_RECORDS: usize = 256;

// A route on a grid: as many records as `count` says, of which the check refuses nothing. Only the check makes one.
// Fixed places with a count: nothing is allocated, and hosts may copy a route, which no vector of fixed room lets them.
#[derive(Clone, Copy)]
pub struct Route {
    grid: Grid,
    count: usize,
    records: [Record; MOST_RECORDS],
    ghost full: { length records ≡ 256 },
    ghost within: { count ≤ 256 },
    ghost checked: { is_route grid (take count records) ≡ true },
}
