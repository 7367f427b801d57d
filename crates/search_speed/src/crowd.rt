// A made-up crowd: the spare sites in the tile of each index, and the price of one of them by count and then congestion.
ghost use Rattle.std.specs.Prelude.{◌≡◌};
ghost use Rattle.search_speed.specs.Crowd.{crowd_spare, crowd_price};
ghost use Rattle.search_speed.specs.Tables.{table};

use crate::patterns::RECORDS;
use congestion::Congestion;
use cost::{Pair, Pricing, Strict};
use count::Count;
use shares::SHARE_UNIT;
use std::array;

pub fn spare_sites() -> [u16; RECORDS]
    ensures { result ≡ table crowd_spare }
{
    array::from_fn(|k| (k % 5) as u16)
}

// A cost by count and then congestion.
pub type Costs = Pair<Count, Congestion>;

// The price at this index, with none where no site is spare.
fn price_at(k: u8) -> Option<Costs>
    ensures { result ≡ crowd_price k }
{
    let used = k as u16 % 3;
    let spare = k as u16 % 5;
    // By an early none: with `then` the goal `returns` stays open.
    if spare == 0 {
        return None;
    }
    Some(Costs::price(used + spare, used, SHARE_UNIT))
}

pub fn prices() -> [Option<Costs>; RECORDS]
    ensures { result ≡ table crowd_price }
{
    array::from_fn(|k| price_at(k as u8))
}
