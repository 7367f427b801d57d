// The search of a net for a cheapest legal plan.
ghost use Rattle.std.specs.Prelude.{◌≡◌, ℕ, ◌+◌, ◌*◌, ◌<◌, ◌≤◌, false, length, is_ok};
ghost use Rattle.net.specs.Checked.{records_of};
ghost use Rattle.best_plan.specs.Chosen.{chosen};
ghost use Rattle.refusal.specs.Told.{told_by};
ghost use Rattle.search.specs.Answers.{cells_needed, cost_of, marks_of_chosen, search_answer, search_refusal, marks_after, told, TellsBest, RestsOnNet};
ghost use Rattle.search_theory.specs.Costs.{kind_of};

use crate::families::{NO_CHILDREN, link};
use crate::fault::SearchFault;
use crate::least::best_entry;
use crate::marks::Rows;
use crate::places::{nth_row, width};
use crate::walk::walk;
use cost::Cost;
use net::limit::Limit;
use net::records::{MOST_RECORDS, Route};
use search_cells::Entry;

// The rows of cells that a search needs beside those of the records.
pub const SPARE_ROWS: usize = 10;

// The cost of the plan that is chosen, with its marks written; nothing where none is.
fn planned<P: Cost>(
    limit: Limit,
    route: &Route,
    spare: &[u16],
    prices: &[Option<P>],
    cells: &mut [Option<Entry<P::Cell>>],
    marks: &mut [u8],
) -> Option<P>
    requires own { length (records_of route.now) * (limit.value + 1) + 5 * (limit.value + 1) ≤ length cells.old }
    requires room { length marks.old ≡ length (records_of route.now) }
    ensures answer { result ≡ cost_of (chosen (kind_of P.Cost) limit.value (records_of route.now) spare.now prices.now) }
    ensures marks { marks.new ≡ marks_of_chosen marks.old (chosen (kind_of P.Cost) limit.value (records_of route.now) spare.now prices.now) }
{
    let mut families = [NO_CHILDREN; MOST_RECORDS];
    let mut ranks = [0; MOST_RECORDS];
    link(route, &mut families, &mut ranks);
    walk::<P>(cells, route, &families, spare, prices, limit);
    let first = best_entry::<P>(nth_row(cells, limit, 0))?;
    let rows = Rows::<P> {
        limit,
        route,
        ranks: &ranks,
        cells,
    };
    rows.decide(first.what, marks);
    Some(P::from_cell(first.cost))
}

// The work cells that a search of this net needs.
fn needed(limit: Limit, route: &Route) -> usize
    ensures { result ≡ cells_needed limit.value (length (records_of route.now)) }
{
    (route.records().len() + SPARE_ROWS) * width(limit)
}

// The cost of a cheapest legal plan for this net, with its marks written, or none where no plan is legal; then the marks
// stay. `spare` and `prices` tell of the tile of each index; past their ends no site is spare. Refused with 17 and the
// work cells needed, of which there are (records + 10) × (limit + 1), then with 19 and the marks needed, one for each
// record; nothing is written then. What the cells hold before a search does not matter, nor what they hold after it.
pub fn search<P: Cost>(
    limit: Limit,
    route: &Route,
    spare: &[u16],
    prices: &[Option<P>],
    cells: &mut [Option<Entry<P::Cell>>],
    marks: &mut [u8],
) -> Result<Option<P>, SearchFault>
    ensures answer { result ≡ search_answer limit.value (length (records_of route.now)) (length cells.old) (length marks.old) (chosen (kind_of P.Cost) limit.value (records_of route.now) spare.now prices.now) }
    ensures told { told_by told result ≡ search_refusal limit.value (length (records_of route.now)) (length cells.old) (length marks.old) }
    ensures marks { marks.new ≡ marks_after limit.value (length (records_of route.now)) (length cells.old) marks.old (chosen (kind_of P.Cost) limit.value (records_of route.now) spare.now prices.now) }
    ensures alone { RestsOnNet (kind_of P.Cost) limit.value (records_of route.now) spare.now prices.now }
    ensures kept { is_ok result ≡ false → cells.new ≡ cells.old }
    ensures best { TellsBest (kind_of P.Cost) limit.value (records_of route.now) spare.now prices.now result marks.new }
{
    let needed = needed(limit, route);
    if cells.len() < needed {
        return Err(SearchFault::Cells(needed));
    }
    let records = route.records();
    if marks.len() != records.len() {
        return Err(SearchFault::Marks(records.len()));
    }
    Ok(planned::<P>(limit, route, spare, prices, cells, marks))
}
