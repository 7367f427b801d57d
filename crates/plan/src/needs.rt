// How many buffers each tile of a route needs.
ghost use Rattle.std.specs.Prelude.{◌≡◌, map};
ghost use Rattle.std.specs.List.{range_with_len};
ghost use Rattle.net.specs.Checked.{records_of};
ghost use Rattle.length_rule.specs.Gates.{need};
ghost use Rattle.length_rule.specs.Local.{NeedsAreLocal};
ghost use Rattle.length_rule.specs.Marks.{Plan};

use crate::marks::{has_head, has_trunk, mark_at};
use net::records::{MOST_RECORDS, Route};

// What the tile of each index of the route needs under these marks; 0 past the last.
pub fn needs(route: &Route, marks: &[u8]) -> [u16; MOST_RECORDS]
    ensures answer { result ≡ map (need (records_of route.now) marks.now) (range_with_len 0 256) }
    ensures local { Plan (records_of route.now) marks.now → NeedsAreLocal (records_of route.now) marks.now }
{
    // Fixed room, since nothing is allocated.
    let mut needs = [0; MOST_RECORDS];
    for (index, record) in route.records().iter().enumerate() {
        let mark = mark_at(marks, index);
        // A head buffer stands in the parent's tile, a trunk buffer in the index's own.
        needs[usize::from(record.parent)] += u16::from(has_head(mark));
        needs[index] += u16::from(has_trunk(mark));
    }
    needs
}
