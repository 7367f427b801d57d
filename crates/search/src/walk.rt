// The rows of a net, from its last index to its first.
ghost use Rattle.std.specs.Prelude.{◌≡◌, ℕ, suc, ◌+◌, ◌-◌, ◌*◌, ◌<◌, ◌≤◌, length};
ghost use Rattle.net.specs.Checked.{records_of};
ghost use Rattle.search_theory.specs.Search.{row};
ghost use Rattle.search_cells.specs.Cells.{rows_of};
ghost use Rattle.search_cells.specs.Families.{TellsFamilies};
ghost use Rattle.best_plan.specs.Chosen.{problem};
ghost use Rattle.search_theory.specs.Costs.{kind_of};

use crate::finish::Table;
use crate::merge::ROWS;
use crate::nodes::{clear, gather};
use crate::places::width;
use crate::prices::{offered, spare_at};
use cost::Cost;
use net::limit::Limit;
use net::records::Route;
use search_cells::{Entry, Family};

// The row of each index, in the first cells. `families` tells the children of each. Spare sites and prices come as the two
// lists that a host lends.
pub(crate) fn walk<P: Cost>(
    cells: &mut [Option<Entry<P::Cell>>],
    route: &Route,
    families: &[Family],
    spare: &[u16],
    prices: &[Option<P>],
    limit: Limit,
)
    requires own { length (records_of route.now) * (limit.value + 1) + 5 * (limit.value + 1) ≤ length cells.old }
    requires wide { length (records_of route.now) ≤ length families.now }
    requires told { TellsFamilies (records_of route.now) families.now }
    ensures rows { (i e : ℕ) → i < length (records_of route.now) → e ≤ limit.value → rows_of P.Cost.held cells.new (limit.value + 1) i e ≡ row (kind_of P.Cost) (problem (kind_of P.Cost) limit.value (records_of route.now) spare.now prices.now) i e }
{
    let n = route.records().len();
    let width = width(limit);
    let (rows, others) = cells.split_at_mut(n * width);
    let table = &mut others[..ROWS * width];
    // By index: each row is made from those of its children, which stand after it.
    for i in (0..n).rev() {
        let price = offered::<P>(spare, prices, i);
        clear::<P>(table);
        gather::<P>(rows, table, &families[i], limit, price);
        let spare_here = spare_at(spare, i);
        let (_, rest) = rows.split_at_mut(i * width);
        let table = Table::<P> {
            limit,
            cells: table,
        };
        table.finish(&mut rest[..width], i > 0, spare_here, price);
    }
}
