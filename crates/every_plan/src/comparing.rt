// One net in one kind of cost: the search's answer beside that of trying every plan.
ghost use Rattle.std.specs.Prelude.{◌≡◌, length};
ghost use Rattle.best_plan.specs.Chosen.{chosen};
ghost use Rattle.search_theory.specs.Costs.{kind_of};
ghost use Rattle.search.specs.Answers.{marks_after};
ghost use Rattle.every_plan.specs.Comparing.{tie, judged, searched, compared};
ghost use Rattle.every_plan.specs.Nets.{net_of};

use crate::shapes::RECORDS;
use crate::trying::Case;
use cost::Cost;
use net::limit::Limit;
use search::fault::SearchFault;
use search::search;
use search_cells::Entry;

// Whether an answer is right, and whether it is a plan: two flags, since each can be without the other.
#[derive(Clone, Copy)]
pub(crate) struct Verdict {
    pub(crate) right: bool,
    pub(crate) plan: bool,
}

// The verdict on a search that is refused or not made.
pub(crate) const NO_ANSWER: Verdict = Verdict {
    right: false,
    plan: false,
};

// Both none, or two costs that tie, which need not be equal.
fn tie<P: Cost>(first: Option<P>, second: Option<P>) -> bool
    ensures { result ≡ tie P.Cost.at_most first second }
{
    match (first, second) {
        (Some(x), Some(y)) => x.at_most(y) && y.at_most(x),
        (None, None) => true,
        _ => false,
    }
}

// Whether an answer is right: it ties with the cheapest of all plans, and the marks that stand after it are accepted at its
// cost.
fn judged<P: Cost>(
    answer: Result<Option<P>, SearchFault>,
    cheapest: Option<P>,
    accepted: Option<P>,
) -> Verdict
    ensures { result ≡ judged P.Cost.at_most answer cheapest accepted }
{
    let Ok(cost) = answer else {
        return NO_ANSWER;
    };
    Verdict {
        right: tie(cost, cheapest) && (cost.is_none() || tie(cost, accepted)),
        plan: cost.is_some(),
    }
}

impl<'a, P: Cost> Case<'a, P> {
    // How the search answers with these marks lent. What the cells hold before and after it does not matter.
    fn searched(
        &self,
        limit: Limit,
        cells: &mut [Option<Entry<P::Cell>>],
        marks: &mut [u8],
    ) -> Verdict
        ensures verdict { result ≡ searched (kind_of P.Cost) (net_of self.now) (length cells.old) marks.old limit.value }
        ensures marks { let net = net_of self.now in marks.new ≡ marks_after limit.value (length net.records) (length cells.old) marks.old (chosen (kind_of P.Cost) limit.value net.records net.spare net.prices) }
    {
        let answer = search::<P>(limit, self.route, self.spare, self.prices, cells, marks);
        judged(
            answer,
            self.by_trying(limit),
            self.accepted_cost(limit, marks),
        )
    }

    // How the search answers at the limit of this figure, with blank marks lent.
    pub(crate) fn compared(&self, figure: usize, cells: &mut [Option<Entry<P::Cell>>]) -> Verdict
        ensures { result ≡ compared (kind_of P.Cost) (net_of self.now) (length cells.old) figure }
    {
        let Ok(limit) = Limit::new(figure) else {
            return NO_ANSWER;
        };
        // Fixed room, of which the route takes what it needs.
        let mut marks = [0; RECORDS];
        let places = self.places();
        self.searched(limit, cells, &mut marks[..places])
    }
}
