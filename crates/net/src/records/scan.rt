// The check of records as a route, in one pass for the records and one for their ends. A mark for each tile of the
// largest grid tells whether it stood at an earlier index, and a mark for each index whether it is a parent; both tables have
// fixed room, since nothing is allocated.
ghost use Rattle.std.specs.Prelude.{◌≡◌, ◌<◌, ◌≤◌, true, length};
ghost use Rattle.net.specs.Lowest.{lowest, fault_of};
ghost use Rattle.net.specs.Marks.{TilesMarked, ParentsMarked};
ghost use Rattle.net.specs.Routes.{parent_of, parent_fits, beside_parent, record_fault, end_fault, route_fault};

use crate::records::MOST_RECORDS;
use crate::records::record::{Record, RouteFault};
use grid::shape::Grid;

// The most tiles that a grid has.
const TILES: usize = 4096;

fn parent_fits(parent: usize, index: usize) -> bool
    ensures { result ≡ parent_fits parent index }
{
    if index == 0 {
        parent == 0
    } else {
        parent < index
    }
}

// Whether the record at this index, whose parent fits, is the driver or stands beside its parent. That the index is one of
// these records is for clauses, here and below: a type for such an index would have to name the records.
fn beside_parent(grid: Grid, records: &[Record], index: usize) -> bool
    requires within { index < length records.now }
    requires fits { parent_fits (parent_of records.now index) index ≡ true }
    ensures { result ≡ beside_parent grid records.now index }
{
    let record = records[index];
    let parent = usize::from(record.parent);
    index == 0 || grid.neighbours(usize::from(record.tile), usize::from(records[parent].tile))
}

// The tests of the record at this index, where `seen` marks the tiles of the earlier ones.
fn check_record(
    grid: Grid,
    records: &[Record],
    index: usize,
    seen: &[bool],
) -> Result<(), RouteFault>
    requires within { index < length records.now }
    requires marked { TilesMarked records.now index seen.now }
    ensures { fault_of result ≡ record_fault grid records.now index }
{
    let record = records[index];
    let tile = usize::from(record.tile);
    if tile >= grid.tile_count() {
        return Err(RouteFault::OffGrid(index));
    }
    if !parent_fits(usize::from(record.parent), index) {
        return Err(RouteFault::Parent(index));
    }
    if !beside_parent(grid, records, index) {
        return Err(RouteFault::Apart(index));
    }
    if seen[tile] {
        return Err(RouteFault::Repeated(index));
    }
    Ok(())
}

// Refuses the lowest index whose record is wrong. It stands beside `check_ends`: one function for both would take each test
// as a closure, and owe its clause.
fn check_each(grid: Grid, records: &[Record]) -> Result<(), RouteFault>
    ensures { fault_of result ≡ lowest (record_fault grid records.now) (length records.now) }
{
    let mut seen = [false; TILES];
    for (i, record) in records.iter().enumerate() {
        check_record(grid, records, i, &seen)?;
        seen[usize::from(record.tile)] = true;
    }
    Ok(())
}

// A mark for each index that is a parent. The driver names itself, and is counted in and passed over: past a `skip` an
// invariant would not know the index.
fn mark_parents(records: &[Record]) -> [bool; MOST_RECORDS]
    ensures { ParentsMarked records.now (length records.now) result }
{
    let mut parents = [false; MOST_RECORDS];
    for (k, record) in records.iter().enumerate() {
        let parent = usize::from(record.parent);
        if k > 0 && parent < MOST_RECORDS {
            parents[parent] = true;
        }
    }
    parents
}

// Refuses the lowest index that has neither child nor sink.
fn check_ends(records: &[Record]) -> Result<(), RouteFault>
    requires { length records.now ≤ 256 }
    ensures { fault_of result ≡ lowest (end_fault records.now) (length records.now) }
{
    let parents = mark_parents(records);
    // Marks by index: over a `zip`, and over its `position`, it stays open what was passed before a refusal.
    for (i, record) in records.iter().enumerate() {
        if !record.sink && !parents[i] {
            return Err(RouteFault::Useless(i));
        }
    }
    Ok(())
}

// Refuses what is no route.
pub fn check_records(grid: Grid, records: &[Record]) -> Result<(), RouteFault>
    ensures { fault_of result ≡ route_fault grid records.now }
{
    if records.is_empty() || records.len() > MOST_RECORDS {
        return Err(RouteFault::Count(records.len()));
    }
    check_each(grid, records)?;
    check_ends(records)
}
