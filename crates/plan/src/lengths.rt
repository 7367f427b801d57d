// What hangs at each index of a route, walked from the end once. A route and marks come apart, as hosts lend them; tables
// have fixed room, since nothing is allocated.
ghost use Rattle.std.specs.Prelude.{◌≡◌, ◌+◌, ◌<◌, ◌≤◌, map, length, if◌then◌else◌};
ghost use Rattle.std.specs.List.{range_with_len};
ghost use Rattle.net.specs.Checked.{records_of};
ghost use Rattle.length_rule.specs.Lengths.{hanging, LengthsAreTheRule};
ghost use Rattle.length_rule.specs.Marks.{has_head, has_trunk};
ghost use Rattle.plan.specs.Walk.{Walked};

use crate::marks::{has_head, has_trunk, mark_at};
use net::records::{MOST_RECORDS, Route};

// What an index with this mark passes up to its parent, where so much hangs at it: nothing past a head buffer, else 1
// and what enters the index.
fn passed(mark: u8, hangs: u16) -> u16
    requires { hangs ≤ 256 }
    ensures { result ≡ (if has_head mark then 0 else 1 + (if has_trunk mark then 0 else hangs)) }
{
    if has_head(mark) {
        0
    } else if has_trunk(mark) {
        1
    } else {
        1 + hangs
    }
}

// One step of the walk: the length of the parent of this index grows by what the index passes up. That it is an index of
// the route is for a clause: a type for such an index would have to name the route.
fn pass_up(route: &Route, marks: &[u8], index: usize, lengths: &mut [u16])
    requires later { 0 < index }
    requires within { index < length (records_of route.now) }
    requires walked { Walked (records_of route.now) marks.now (index + 1) lengths.old }
    ensures { Walked (records_of route.now) marks.now index lengths.new }
{
    let passes = passed(mark_at(marks, index), lengths[index]);
    let parent = usize::from(route.records()[index].parent);
    lengths[parent] += passes;
}

// What hangs at each index of the route under these marks; 0 past the last.
pub fn hanging(route: &Route, marks: &[u8]) -> [u16; MOST_RECORDS]
    ensures answer { result ≡ map (hanging (records_of route.now) marks.now) (range_with_len 0 256) }
    ensures rule { LengthsAreTheRule (records_of route.now) marks.now }
{
    let mut lengths = [0; MOST_RECORDS];
    // Over indices: by `enumerate().skip(1).rev()` each record would be named and not read.
    for index in (1..route.records().len()).rev() {
        pass_up(route, marks, index, &mut lengths);
    }
    lengths
}
