// Congestion as a cost kind and as a pricing.
ghost use Rattle.std.specs.Prelude.{◌≡◌, ◌<◌};
ghost use Rattle.laws.specs.Amounts.{amount_at_most, capped_sum};
ghost use Rattle.laws.specs.Fractions.{RoundedDown};
ghost use Rattle.laws.proofs.Bounded.{amount_reads_back, capped_laws};
ghost use Rattle.shares.specs.Shares.{share_unit};
ghost use Rattle.congestion.specs.Congestions.{congestion, congestions};
ghost use Rattle.congestion.specs.Price.{congestion_price, price_over, price_under};

use crate::amount::{CEILING, Congestion};
use cost::{Cost, Pricing};
use shares::SHARE_UNIT;

// A price counts thousandths. Each kind says its own parts.
const THOUSANDTHS: u64 = 1000;

pub(crate) fn capped(value: u64) -> Congestion
    ensures { result ≡ congestion value }
{
    Congestion {
        value: value.min(CEILING),
    }
}

// The exact fraction of the price, rounded down.
fn fraction(capacity: u16, used: u16, share: u32) -> u64
    requires { used < capacity }
    ensures price { result ≡ congestion_price share_unit capacity used share }
    ensures floor { RoundedDown (price_over share_unit used share) (price_under share_unit capacity used) result }
{
    let over = THOUSANDTHS * ((used as u64 + 1) * SHARE_UNIT as u64 + share as u64);
    let under = (capacity as u64 - used as u64) * SHARE_UNIT as u64;
    over / under
}

impl Cost for Congestion {
    type Cell = u64;

    ghost nothing = { congestion 0 };

    ghost plus = { capped_sum congestions };

    ghost at_most = { amount_at_most congestions };

    ghost stored = { λ x. x.value };

    ghost held = { congestion };

    fn nothing() -> Congestion {
        capped(0)
    }

    fn plus(self, other: Congestion) -> Congestion {
        capped(self.value + other.value)
    }

    fn at_most(self, other: Congestion) -> bool {
        self.value <= other.value
    }

    fn to_cell(self) -> u64 {
        self.value
    }

    fn from_cell(cell: u64) -> Congestion {
        capped(cell)
    }

    ghost lawful = { capped_laws congestions };

    ghost kept = { amount_reads_back congestions };
}

impl Pricing for Congestion {
    ghost priced = { congestion_price share_unit };

    fn price(capacity: u16, used: u16, share: u32) -> Congestion
        requires { used < capacity }
        ensures price { result.value ≡ congestion_price share_unit capacity used share }
        ensures floor { RoundedDown (price_over share_unit used share) (price_under share_unit capacity used) result.value }
    {
        Congestion {
            value: fraction(capacity, used, share),
        }
    }
}
