// Searching one net over and over. Cells and marks have fixed room, of which a net takes what it needs.
ghost use Rattle.std.specs.Prelude.{◌≡◌, length};
ghost use Rattle.net.specs.Checked.{records_of};
ghost use Rattle.best_plan.specs.Chosen.{chosen};
ghost use Rattle.search.specs.Answers.{cost_of, marks_after, search_answer};
ghost use Rattle.search_speed.specs.Searches.{count_then_congestion, plan_in_crowd};

use crate::crowd::{Costs, prices, spare_sites};
use crate::patterns::RECORDS;
use cost::Cost;
use net::limit::Limit;
use net::records::Route;
use search::{SPARE_ROWS, SearchFault, search};
use search_cells::Entry;

// The work cells for the most records at the largest limit.
const CELLS: usize = (RECORDS + SPARE_ROWS) * (Limit::LARGEST + 1);

// A work cell.
type Cell = Option<Entry<<Costs as Cost>::Cell>>;

// What a search answers that is made so many times, and at least once: each time the same, with the same marks.
fn over_and_over(
    times: u32,
    limit: Limit,
    route: &Route,
    spare: &[u16],
    prices: &[Option<Costs>],
    cells: &mut [Cell],
    marks: &mut [u8],
) -> Result<Option<Costs>, SearchFault>
    ensures answer { result ≡ search_answer limit.value (length (records_of route.now)) (length cells.old) (length marks.old) (chosen count_then_congestion limit.value (records_of route.now) spare.now prices.now) }
    ensures marks { marks.new ≡ marks_after limit.value (length (records_of route.now)) (length cells.old) marks.old (chosen count_then_congestion limit.value (records_of route.now) spare.now prices.now) }
{
    let mut answer = search(limit, route, spare, prices, cells, marks);
    for _ in 1..times {
        answer = search(limit, route, spare, prices, cells, marks);
    }
    answer
}

// The cost of the plan found for this net in the crowd, by so many searches, at least one; none where no plan is legal.
pub fn found(times: u32, limit: Limit, route: &Route) -> Option<Costs>
    ensures { result ≡ cost_of (plan_in_crowd limit.value (records_of route.now)) }
{
    let mut cells: [Cell; CELLS] = [None; CELLS];
    let mut marks = [0; RECORDS];
    let count = route.records().len();
    over_and_over(
        times,
        limit,
        route,
        &spare_sites(),
        &prices(),
        &mut cells,
        &mut marks[..count],
    )
    .ok()
    .flatten()
}
