// Facts about checked routes, each on the contract of a question about a route: the boundaries that a route crosses are
// all different, an index has at most four children and past the driver at most three, and every index leads back to the
// driver through earlier indices. The crate uses the grid, nets and the children of an index.
#![tactic(auto)]

ghost use Rattle.std.specs.Prelude.{◌≡◌, ◌==◌, ◌<◌, length, count_by};
ghost use Rattle.net.specs.Checked.{records_of};
ghost use Rattle.route_facts.specs.Facts.{crossing, CrossesEach, CrossingsApart, child_count, FewChildren, parent_told, LeadsBackEach};

use net::records::Route;
use net::records::record::Record;

// The index that this one hangs from, or None at the driver and past the last index.
pub fn parent(route: &Route, index: usize) -> Option<usize>
    ensures answer { result ≡ parent_told (records_of route.now) index }
    ensures back { LeadsBackEach (records_of route.now) }
{
    let record = route.records().get(index)?;
    (index > 0).then_some(usize::from(record.parent))
}

// The boundary that the route crosses from this index to its parent, or None at the driver and past the last index.
pub fn crossing(route: &Route, index: usize) -> Option<usize>
    ensures answer { result ≡ crossing route.now.grid (records_of route.now) index }
    ensures each { CrossesEach route.now.grid (records_of route.now) }
    ensures apart { CrossingsApart route.now.grid (records_of route.now) }
{
    let parent = parent(route, index)?;
    let records = route.records();
    route.grid().boundary_between(
        usize::from(records[index].tile),
        usize::from(records[parent].tile),
    )
}

// How many of these records hang from this index.
fn hanging_from(records: &[Record], index: usize) -> usize
    requires { length records.now < 256 }
    ensures { result ≡ count_by (λ r. r.parent == index) records.now }
{
    records
        .iter()
        .map(|record| usize::from(usize::from(record.parent) == index))
        .sum()
}

// How many children this index has. Index 0 names itself, and is nobody's child.
pub fn child_count(route: &Route, index: usize) -> usize
    ensures answer { result ≡ child_count (records_of route.now) index }
    ensures few { FewChildren (records_of route.now) }
{
    hanging_from(&route.records()[1..], index)
}
