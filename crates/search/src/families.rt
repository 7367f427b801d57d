// Which indices hang from which, found in one pass over the records.
ghost use Rattle.std.specs.Prelude.{◌≡◌, ℕ, ◌<◌, [], length, slice_index};
ghost use Rattle.net.specs.Checked.{records_of};
ghost use Rattle.search_cells.specs.Families.{members_at, TellsFamilies, TellsRanks};

use net::records::Route;
use search_cells::Family;

// The family of an index that nothing hangs from.
pub(crate) const NO_CHILDREN: Family = Family {
    count: 0,
    items: [0; 4],
};

// The children of each index, and for each index how many of its siblings stand before it. Two tables and not one of
// pairs, since the walk is lent only the first and the marks only the second. Both are lent blank and filled: answered by
// value they are copied, and a net of one record is searched in twice the time.
pub(crate) fn link(route: &Route, families: &mut [Family], ranks: &mut [u8])
    requires wide { length families.old ≡ 256 }
    requires long { length ranks.old ≡ 256 }
    requires first { slice_index ranks.old 0 ≡ 0 }
    requires fresh { (i : ℕ) → i < length (records_of route.now) → members_at families.old i ≡ [] }
    ensures families { TellsFamilies (records_of route.now) families.new }
    ensures ranks { TellsRanks (records_of route.now) ranks.new }
{
    for (k, record) in route.records().iter().enumerate().skip(1) {
        let parent = record.parent as usize;
        let family = families[parent];
        ranks[k] = family.count;
        families[parent] = family.push(k as u8);
    }
}
