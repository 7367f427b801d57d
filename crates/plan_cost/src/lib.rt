// What a plan costs, in any kind of cost: tile by tile, the sum, from nothing, of the prices of the sites that the plan
// takes there. Prices are lent along the route, one for each index, and there is none where no site is spare. The crate
// promises the sum by equality, for every kind of cost. It uses plans and the interface of a cost kind.
#![tactic(auto)]

ghost use Rattle.std.specs.Prelude.{◌≡◌};
ghost use Rattle.net.specs.Checked.{records_of};
ghost use Rattle.length_rule.specs.Costs.{kth_price, tile_cost, plan_cost};

use cost::Cost;
use net::records::Route;
use plan::needs::needs;

// What the k-th site costs that a plan takes in a tile of this price. Without a price it adds nothing.
pub fn kth_price<P: Cost>(price: Option<P>, k: usize) -> P
    ensures { result ≡ kth_price P.Cost.nothing P.Cost.plus price k }
{
    // A `match`: by `unwrap_or` nothing would be asked for beside each price.
    match price {
        Some(price) => price,
        None => P::nothing(),
    }
}

// What so many sites cost in a tile of this price.
pub fn tile_cost<P: Cost>(price: Option<P>, sites: usize) -> P
    ensures { result ≡ tile_cost P.Cost.nothing P.Cost.plus price sites }
{
    (0..sites).fold(P::nothing(), |sum, k| kth_price(price, k).plus(sum))
}

// What a plan costs, with these prices along the route.
pub fn plan_cost<P: Cost>(route: &Route, prices: &[Option<P>], marks: &[u8]) -> P
    ensures { result ≡ plan_cost P.Cost.nothing P.Cost.plus (records_of route.now) prices.now marks.now }
{
    let needed = needs(route, marks);
    let mut sum = P::nothing();
    for (index, sites) in needed[..route.records().len()].iter().enumerate() {
        let price = prices.get(index).copied().flatten();
        sum = tile_cost(price, usize::from(*sites)).plus(sum);
    }
    sum
}
