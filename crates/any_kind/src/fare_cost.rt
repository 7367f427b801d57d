// The fare as a cost kind and as a pricing. The larger of the coins and the larger of the stamps make the sum. Two fares
// with as many coins tie, whatever their stamps.
ghost use Rattle.any_kind.specs.Fares.{fare, fare_at_most, fare_kept, fare_laws, fare_plus};

use crate::fare::Fare;
use cost::{Cost, Pricing};

impl Cost for Fare {
    type Cell = (u16, u16);

    ghost nothing = { fare 0 0 };

    ghost plus = { fare_plus };

    ghost at_most = { fare_at_most };

    ghost stored = { λ x. (x.coins, x.stamps) };

    ghost held = { λ cell. fare cell.0 cell.1 };

    fn nothing() -> Fare {
        Fare {
            coins: 0,
            stamps: 0,
        }
    }

    fn plus(self, other: Fare) -> Fare {
        Fare {
            coins: self.coins.max(other.coins),
            stamps: self.stamps.max(other.stamps),
        }
    }

    fn at_most(self, other: Fare) -> bool {
        self.coins <= other.coins
    }

    fn to_cell(self) -> (u16, u16) {
        (self.coins, self.stamps)
    }

    fn from_cell(cell: (u16, u16)) -> Fare {
        Fare {
            coins: cell.0,
            stamps: cell.1,
        }
    }

    ghost lawful = { fare_laws };

    ghost kept = { fare_kept };
}

impl Pricing for Fare {
    ghost priced = { λ capacity used share. (used, capacity) };

    fn price(capacity: u16, used: u16, _share: u32) -> Fare {
        Fare {
            coins: used,
            stamps: capacity,
        }
    }
}
