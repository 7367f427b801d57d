// Many nets in one kind of cost, and how their answers compared. Each function goes over one of the things that are handed
// down, so that no two of them take the same.
ghost use Rattle.std.specs.Prelude.{◌≡◌, map, length};
ghost use Rattle.search_theory.specs.Costs.{kind_of};
ghost use Rattle.every_plan.specs.Crowds.{prices_along, prices_after};
ghost use Rattle.every_plan.specs.Nets.{net_of};
ghost use Rattle.every_plan.specs.Tallies.{counted, on_route, of_shape, in_crowd, tried};

use crate::comparing::{NO_ANSWER, Verdict};
use crate::crowds::{Crowd, spare_along, write_prices};
use crate::trying::Case;
use cost::{Cost, Pricing};
use grid::shape::Grid;
use net::records::Route;
use net::records::record::Record;
use search_cells::Entry;

// The largest limit that is tried.
pub(crate) const LIMITS: usize = 4;

// How many answers were compared, how many were plans, and how many differed.
#[derive(Clone, Copy, Default)]
pub(crate) struct Tally {
    pub(crate) compared: usize,
    pub(crate) plans: usize,
    pub(crate) different: usize,
}

impl Tally {
    // One answer more.
    fn counted(self, verdict: Verdict) -> Tally
        ensures { result ≡ counted self verdict }
    {
        Tally {
            compared: self.compared.saturating_add(1),
            plans: self.plans.saturating_add(usize::from(verdict.plan)),
            different: self.different.saturating_add(usize::from(!verdict.right)),
        }
    }
}

// A net at each limit.
fn on_route<P: Cost>(case: &Case<P>, cells: &mut [Option<Entry<P::Cell>>], before: Tally) -> Tally
    ensures { result ≡ on_route (kind_of P.Cost) (length cells.old) (net_of case.now) before }
{
    // A loop, here and below: of a fold whose closure writes the cells the goal `returns` stays open.
    let mut tally = before;
    for figure in 1..=LIMITS {
        tally = tally.counted(case.compared(figure, cells));
    }
    tally
}

// A shape at each limit.
fn of_shape<P: Cost>(
    grid: Grid,
    shape: &[Record],
    spare: &[u16],
    prices: &[Option<P>],
    cells: &mut [Option<Entry<P::Cell>>],
    before: Tally,
) -> Tally
    ensures { result ≡ of_shape (kind_of P.Cost) (length cells.old) spare.now prices.now grid before shape.now }
{
    let Ok(route) = Route::check(grid, shape) else {
        return before.counted(NO_ANSWER);
    };
    let case = Case {
        route: &route,
        spare,
        prices,
    };
    on_route(&case, cells, before)
}

// Each shape at each limit in one crowd, whose prices are written.
fn in_crowd<P: Pricing>(
    crowd: Crowd,
    grid: Grid,
    shapes: &[&[Record]],
    prices: &mut [Option<P>],
    cells: &mut [Option<Entry<P::Cell>>],
    before: Tally,
) -> Tally
    ensures tally { result ≡ in_crowd P.Cost P.Pricing.priced (length prices.old) (length cells.old) grid (map (λ s. s.now) shapes.now) before crowd }
    ensures prices { prices.new ≡ prices_along P.Cost P.Pricing.priced (length prices.old) crowd }
{
    write_prices(&crowd, prices);
    let spare = spare_along(crowd);
    let mut tally = before;
    for shape in shapes {
        tally = of_shape(grid, shape, &spare, prices, cells, tally);
    }
    tally
}

// Each shape at each limit in each crowd.
pub(crate) fn tried<P: Pricing>(
    grid: Grid,
    shapes: &[&[Record]],
    crowds: &[Crowd],
    prices: &mut [Option<P>],
    cells: &mut [Option<Entry<P::Cell>>],
) -> Tally
    ensures tally { result ≡ tried P.Cost P.Pricing.priced (length prices.old) (length cells.old) grid (map (λ s. s.now) shapes.now) crowds.now }
    ensures prices { prices.new ≡ prices_after P.Cost P.Pricing.priced prices.old crowds.now }
{
    let mut tally = Tally::default();
    for crowd in crowds {
        tally = in_crowd(*crowd, grid, shapes, prices, cells, tally);
    }
    tally
}
