// The table of an index, from the rows of its children.
ghost use Rattle.std.specs.Prelude.{◌≡◌, ℕ, suc, ◌+◌, ◌-◌, ◌*◌, ◌<◌, ◌≤◌, map, length, Some, None, slice_index};
ghost use Rattle.length_rule.specs.Costs.{kth_price};
ghost use Rattle.search_theory.specs.Joining.{start, table as joined};
ghost use Rattle.search_cells.specs.Cells.{rows_of, table_of};
ghost use Rattle.search_cells.specs.Families.{members};
ghost use Rattle.search_theory.specs.Costs.{kind_of};

use crate::merge::merge;
use crate::places::nth_row;
use cost::Cost;
use net::limit::Limit;
use search_cells::{Chosen, Entry, Family, Few, NO_LEG, Priced};

// The table of no children, whatever the width of its rows.
pub(crate) fn clear<P: Cost>(table: &mut [Option<Entry<P::Cell>>])
    requires { 0 < length table.old }
    ensures { (w h j : ℕ) → j < w → table_of P.Cost.held table.new w h j ≡ start (kind_of P.Cost) h j }
{
    table.fill(None);
    table[0] = Some(Priced {
        cost: P::nothing().to_cell(),
        what: Chosen {
            trunk: false,
            legs: Few {
                count: 0,
                items: [NO_LEG; 4],
            },
        },
    });
}

// One child after another joined to the cleared table: the family's, of which there are at most four, each with one of the
// rows.
pub(crate) fn gather<P: Cost>(
    rows: &[Option<Entry<P::Cell>>],
    table: &mut [Option<Entry<P::Cell>>],
    family: &Family,
    limit: Limit,
    price: Option<P>,
)
    requires own { length table.old ≡ 5 * (limit.value + 1) }
    requires few { family.now.count ≤ 4 }
    requires inside { (c : ℕ) → c < family.now.count → (slice_index family.now.items c + 1) * (limit.value + 1) ≤ length rows.now }
    requires clear { (h j : ℕ) → j < limit.value + 1 → table_of P.Cost.held table.old (limit.value + 1) h j ≡ start (kind_of P.Cost) h j }
    ensures { (h j : ℕ) → h < 5 → j ≤ limit.value → table_of P.Cost.held table.new (limit.value + 1) h j ≡ joined (kind_of P.Cost) limit.value (kth_price P.Cost.nothing P.Cost.plus price) (map (rows_of P.Cost.held rows.now (limit.value + 1)) (members family.now)) h j }
{
    for k in family.as_slice() {
        merge::<P>(table, nth_row(rows, limit, *k as usize), limit, price);
    }
}
