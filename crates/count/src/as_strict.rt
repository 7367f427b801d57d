// Count as a strict kind.
ghost use Rattle.std.specs.Prelude.{◌≡◌};
ghost use Rattle.laws.specs.Amounts.{amount_at_most, capped_sum};
ghost use Rattle.laws.proofs.Bounded.{amount_reads_back, capped_laws, capped_strict};
ghost use Rattle.count.specs.Counts.{count, counts};
ghost use Rattle.count.specs.Price.{count_ceiling, count_price};

use crate::amount::{CEILING, Count};
use crate::as_cost::capped;
use cost::{Cost, Pricing, Strict};

impl Strict for Count {
    type Slot = u16;

    ghost nothing = { count 0 };

    ghost plus = { capped_sum counts };

    ghost at_most = { amount_at_most counts };

    ghost ceiling = { count count_ceiling };

    ghost stored = { λ x. x.value };

    ghost held = { count };

    ghost priced = { count_price };

    fn nothing() -> Count {
        <Count as cost::Cost>::nothing()
    }

    fn plus(self, other: Count) -> Count {
        <Count as cost::Cost>::plus(self, other)
    }

    fn at_most(self, other: Count) -> bool {
        <Count as cost::Cost>::at_most(self, other)
    }

    fn ceiling() -> Count {
        capped(CEILING as u32)
    }

    fn to_slot(self) -> u16 {
        <Count as cost::Cost>::to_cell(self)
    }

    fn from_slot(slot: u16) -> Count {
        <Count as cost::Cost>::from_cell(slot)
    }

    fn price(capacity: u16, used: u16, share: u32) -> Count {
        <Count as cost::Pricing>::price(capacity, used, share)
    }

    ghost lawful = { capped_laws counts };

    ghost strict = { capped_strict counts };

    ghost kept = { amount_reads_back counts };
}
