// Worst tile as a cost kind and as a pricing.
ghost use Rattle.std.specs.Prelude.{◌≡◌, ◌<◌};
ghost use Rattle.laws.specs.Amounts.{amount_at_most, larger};
ghost use Rattle.laws.specs.Fractions.{RoundedDown};
ghost use Rattle.laws.proofs.Bounded.{amount_reads_back, larger_laws};
ghost use Rattle.worst_tile.specs.Price.{price_over, worst_tile_price};
ghost use Rattle.worst_tile.specs.WorstTiles.{worst_tile, worst_tiles};

use crate::amount::{CEILING, WorstTile};
use cost::{Cost, Pricing};

// A price counts thousandths. Each kind says its own parts.
const THOUSANDTHS: u32 = 1000;

fn capped(value: u16) -> WorstTile
    ensures { result ≡ worst_tile value }
{
    WorstTile {
        value: value.min(CEILING),
    }
}

// The exact fraction of the price, rounded down.
fn fraction(capacity: u16, used: u16) -> u32
    requires { used < capacity }
    ensures price { result ≡ worst_tile_price capacity used 0 }
    ensures floor { RoundedDown (price_over used) capacity result }
{
    THOUSANDTHS * (used as u32 + 1) / capacity as u32
}

impl Cost for WorstTile {
    type Cell = u16;

    ghost nothing = { worst_tile 0 };

    ghost plus = { larger worst_tiles };

    ghost at_most = { amount_at_most worst_tiles };

    ghost stored = { λ x. x.value };

    ghost held = { worst_tile };

    fn nothing() -> WorstTile {
        capped(0)
    }

    fn plus(self, other: WorstTile) -> WorstTile {
        capped(self.value.max(other.value))
    }

    fn at_most(self, other: WorstTile) -> bool {
        self.value <= other.value
    }

    fn to_cell(self) -> u16 {
        self.value
    }

    fn from_cell(cell: u16) -> WorstTile {
        capped(cell)
    }

    ghost lawful = { larger_laws worst_tiles };

    ghost kept = { amount_reads_back worst_tiles };
}

impl Pricing for WorstTile {
    ghost priced = { worst_tile_price };

    fn price(capacity: u16, used: u16, _share: u32) -> WorstTile
        requires { used < capacity }
        ensures price { result.value ≡ worst_tile_price capacity used _share }
        ensures floor { RoundedDown (price_over used) capacity result.value }
    {
        WorstTile {
            value: fraction(capacity, used) as u16,
        }
    }
}
