// The reserve: holds back a percentage of each capacity told below it, rounded up.
ghost use Rattle.std.specs.Prelude.{◌≡◌};
ghost use Rattle.reserve.specs.Reserved.{left};

use crate::percent::Percent;
use stock::stock::Stock;

pub mod as_stock;

#[derive(Drop)]
pub struct Reserve<'b, S> {
    below: &'b mut S,
    percent: Percent,
}

impl<'b, S: Stock> Reserve<'b, S> {
    pub fn new(below: &'b mut S, percent: Percent) -> Reserve<'b, S>
        ensures holds { result.below.now ≡ below.old }
        ensures lender { result.below.ghost_name ≡ below.entry.ghost_name }
        ensures held { result.percent ≡ percent }
    {
        Reserve { below, percent }
    }
}

// What is left of a capacity.
fn left_of(percent: Percent, capacity: u16) -> u16
    ensures { result ≡ left percent.value capacity }
{
    let capacity = u32::from(capacity);
    let held = (capacity * u32::from(percent.value())).div_ceil(100);
    (capacity - held) as u16
}
