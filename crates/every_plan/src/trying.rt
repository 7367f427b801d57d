// A net with what stands along its route, and trying every plan of it.
ghost use Rattle.std.specs.Prelude.{◌≡◌, ◌<◌, min, length};
ghost use Rattle.search_theory.specs.Costs.{kind_of};
ghost use Rattle.every_plan.specs.Codes.{mark_of, marks_of, plans};
ghost use Rattle.every_plan.specs.Nets.{net_of};
ghost use Rattle.every_plan.specs.Shapes.{shape_room};
ghost use Rattle.every_plan.specs.Trying.{lower, accepted_cost, cost_of_code, by_trying};

use crate::shapes::RECORDS;
use cost::Cost;
use hand_plan::check_plan;
use net::limit::Limit;
use net::records::Route;
use plan_cost::plan_cost;

// A route, and the spare sites and the prices along it.
#[derive(Clone, Copy)]
pub(crate) struct Case<'a, P> {
    pub(crate) route: &'a Route,
    pub(crate) spare: &'a [u16],
    pub(crate) prices: &'a [Option<P>],
}

// The mark at an index: the driver's is 0, and those after it are the code's digits in fours, the lowest first.
#[tactic(auto, using(crate::proofs::Fours::fours_fit, crate::proofs::Fours::fours_some))]
fn mark_of(code: usize, index: usize) -> u8
    requires { index < shape_room }
    ensures { result ≡ mark_of code index }
{
    if index == 0 {
        0
    } else {
        (code / 4usize.pow(index as u32 - 1) % 4) as u8
    }
}

fn marks_of(code: usize) -> [u8; RECORDS]
    ensures { result ≡ marks_of code }
{
    std::array::from_fn(|index| mark_of(code, index))
}

// How many plans there are for so many records: four marks for each but the driver. For more records than a shape has
// no plan is tried.
#[tactic(auto, using(crate::proofs::Fours::fours_fit))]
fn plans(records: usize) -> usize
    ensures { result ≡ plans records }
{
    if records > RECORDS {
        0
    } else {
        4usize.pow(records.saturating_sub(1) as u32)
    }
}

// The lower of two costs, the first where they tie.
fn lower<P: Cost>(x: P, y: P) -> P
    ensures { result ≡ lower P.Cost.at_most x y }
{
    if x.at_most(y) { x } else { y }
}

impl<'a, P: Cost> Case<'a, P> {
    // How many of a shape's marks the route has use for.
    pub(crate) fn places(&self) -> usize
        ensures { result ≡ min (length (net_of self.now).records) shape_room }
    {
        self.route.records().len().min(RECORDS)
    }

    // What a plan costs, where the check accepts it.
    pub(crate) fn accepted_cost(&self, limit: Limit, marks: &[u8]) -> Option<P>
        ensures { result ≡ accepted_cost (kind_of P.Cost) (net_of self.now) limit.value marks.now }
    {
        check_plan(limit, self.route, self.spare, marks).ok()?;
        Some(plan_cost(self.route, self.prices, marks))
    }

    // What the plan of a code costs, where the check accepts it.
    fn cost_of_code(&self, limit: Limit, code: usize) -> Option<P>
        ensures { result ≡ cost_of_code (kind_of P.Cost) (net_of self.now) limit.value code }
    {
        let places = self.places();
        self.accepted_cost(limit, &marks_of(code)[..places])
    }

    // The cost of the cheapest of all plans that are accepted, if any is.
    pub(crate) fn by_trying(&self, limit: Limit) -> Option<P>
        ensures { result ≡ by_trying (kind_of P.Cost) (net_of self.now) limit.value }
    {
        (0..plans(self.route.records().len()))
            .filter_map(|code| self.cost_of_code(limit, code))
            .reduce(lower)
    }
}
