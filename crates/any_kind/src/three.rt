// A pair in a pair, with its meaning written out: by count, then by congestion, then by worst tile.
ghost use Rattle.std.specs.Prelude.{◌≡◌, if◌then◌else◌};
ghost use Rattle.laws.specs.Amounts.{amount_at_most};
ghost use Rattle.cost.specs.Pairs.{pair_at_most};
ghost use Rattle.congestion.specs.Congestions.{congestion, congestions};
ghost use Rattle.congestion.specs.Price.{congestion_ceiling};
ghost use Rattle.count.specs.Counts.{count, counts};
ghost use Rattle.count.specs.Price.{count_ceiling};
ghost use Rattle.worst_tile.specs.WorstTiles.{worst_tiles};

use crate::work::cheaper;
use congestion::Congestion;
use cost::Pair;
use count::Count;
use worst_tile::WorstTile;

pub type Three = Pair<Count, Pair<Congestion, WorstTile>>;

pub fn cheaper_of_three(x: Three, y: Three) -> Three
    ensures { result ≡ (if pair_at_most (amount_at_most counts) (count count_ceiling) (pair_at_most (amount_at_most congestions) (congestion congestion_ceiling) (amount_at_most worst_tiles)) x y then x else y) }
{
    cheaper(x, y)
}
