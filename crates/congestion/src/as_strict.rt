// Congestion as a strict kind.
ghost use Rattle.std.specs.Prelude.{◌≡◌, ◌<◌};
ghost use Rattle.laws.specs.Amounts.{amount_at_most, capped_sum};
ghost use Rattle.laws.proofs.Bounded.{amount_reads_back, capped_laws, capped_strict};
ghost use Rattle.shares.specs.Shares.{share_unit};
ghost use Rattle.congestion.specs.Congestions.{congestion, congestions};
ghost use Rattle.congestion.specs.Price.{congestion_ceiling, congestion_price};

use crate::amount::{CEILING, Congestion};
use crate::as_cost::capped;
use cost::{Cost, Pricing, Strict};

impl Strict for Congestion {
    type Slot = u64;

    ghost nothing = { congestion 0 };

    ghost plus = { capped_sum congestions };

    ghost at_most = { amount_at_most congestions };

    ghost ceiling = { congestion congestion_ceiling };

    ghost stored = { λ x. x.value };

    ghost held = { congestion };

    ghost priced = { congestion_price share_unit };

    fn nothing() -> Congestion {
        <Congestion as cost::Cost>::nothing()
    }

    fn plus(self, other: Congestion) -> Congestion {
        <Congestion as cost::Cost>::plus(self, other)
    }

    fn at_most(self, other: Congestion) -> bool {
        <Congestion as cost::Cost>::at_most(self, other)
    }

    fn ceiling() -> Congestion {
        capped(CEILING)
    }

    fn to_slot(self) -> u64 {
        <Congestion as cost::Cost>::to_cell(self)
    }

    fn from_slot(slot: u64) -> Congestion {
        <Congestion as cost::Cost>::from_cell(slot)
    }

    fn price(capacity: u16, used: u16, share: u32) -> Congestion {
        <Congestion as cost::Pricing>::price(capacity, used, share)
    }

    ghost lawful = { capped_laws congestions };

    ghost strict = { capped_strict congestions };

    ghost kept = { amount_reads_back congestions };
}
