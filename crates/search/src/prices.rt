// What is told of the sites along a route.
ghost use Rattle.std.specs.Prelude.{◌≡◌};
ghost use Rattle.length_rule.specs.Legal.{spare_at};
ghost use Rattle.best_plan.specs.Chosen.{offered as offer};

use crate::places::cell;
use cost::Cost;

// The spare sites in the tile of an index; none where none is told.
pub(crate) fn spare_at(spare: &[u16], index: usize) -> u16
    ensures { result ≡ spare_at spare.now index }
{
    spare.get(index).copied().unwrap_or(0)
}

// The price in the tile of an index, where it has a spare site; none where none is told.
pub(crate) fn offered<P: Cost>(spare: &[u16], prices: &[Option<P>], index: usize) -> Option<P>
    ensures { result ≡ offer spare.now prices.now index }
{
    if spare_at(spare, index) == 0 {
        return None;
    }
    cell(prices, index)
}
