// Generic work over costs: the price of a site, the cheaper of two, the sum of a list of work cells.
ghost use Rattle.std.specs.Prelude.{◌≡◌, ◌<◌, true, if◌then◌else◌};
ghost use Rattle.any_kind.specs.Bills.{sum_of};

use cost::{Cost, Pricing};

// The price of one site, as a cost.
pub fn site_cost<P: Pricing>(capacity: u16, used: u16, share: u32) -> P
    requires { used < capacity }
    ensures { result ≡ P.Cost.held (P.Pricing.priced capacity used share) }
{
    P::price(capacity, used, share)
}

// The first of two costs where they tie, else the lower.
pub fn cheaper<P: Cost>(x: P, y: P) -> P
    ensures which { result ≡ (if P.Cost.at_most x y then x else y) }
    ensures first { P.Cost.at_most result x ≡ true }
    ensures second { P.Cost.at_most result y ≡ true }
{
    if x.at_most(y) { x } else { y }
}

// The sum of the costs in the cells, from nothing.
pub fn bill<P: Cost>(cells: &[P::Cell]) -> P
    ensures { result ≡ sum_of P.Cost.nothing P.Cost.plus P.Cost.held cells.now }
{
    cells
        .iter()
        .map(|cell| P::from_cell(*cell))
        .fold(P::nothing(), |sum, cost| sum.plus(cost))
}
