// Count as a cost kind and as a pricing.
ghost use Rattle.std.specs.Prelude.{◌≡◌};
ghost use Rattle.laws.specs.Amounts.{amount_at_most, capped_sum};
ghost use Rattle.laws.proofs.Bounded.{amount_reads_back, capped_laws};
ghost use Rattle.count.specs.Counts.{count, counts};
ghost use Rattle.count.specs.Price.{count_price};

use crate::amount::{CEILING, Count};
use cost::{Cost, Pricing};

// What each site counts.
const ONE_SITE: u16 = 1;

pub(crate) fn capped(value: u32) -> Count
    ensures { result ≡ count value }
{
    Count {
        value: value.min(CEILING as u32) as u16,
    }
}

impl Cost for Count {
    type Cell = u16;

    ghost nothing = { count 0 };

    ghost plus = { capped_sum counts };

    ghost at_most = { amount_at_most counts };

    ghost stored = { λ x. x.value };

    ghost held = { count };

    fn nothing() -> Count {
        capped(0)
    }

    fn plus(self, other: Count) -> Count {
        capped(self.value as u32 + other.value as u32)
    }

    fn at_most(self, other: Count) -> bool {
        self.value <= other.value
    }

    fn to_cell(self) -> u16 {
        self.value
    }

    fn from_cell(cell: u16) -> Count {
        capped(cell as u32)
    }

    ghost lawful = { capped_laws counts };

    ghost kept = { amount_reads_back counts };
}

impl Pricing for Count {
    ghost priced = { count_price };

    fn price(_capacity: u16, _used: u16, _share: u32) -> Count {
        Count { value: ONE_SITE }
    }
}
