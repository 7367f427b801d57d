// How crowded the tiles along a route are, and what that leaves: spare sites and their prices.
ghost use Rattle.std.specs.Prelude.{◌≡◌, length};
ghost use Rattle.every_plan.specs.Crowds.{spare_in, price_in, price_at, spare_along, prices_along};

use crate::shapes::RECORDS;
use cost::Pricing;

// The capacity, the use and the waiting share of a tile.
#[derive(Clone, Copy)]
pub(crate) struct Tile {
    capacity: u16,
    used: u16,
    share: u32,
}

// A tile for each index that a shape has room for.
pub(crate) type Crowd = [Tile; RECORDS];

// A static calls no function, so a macro writes its tiles: so many used of the capacity, and the waiting share.
macro_rules! tile {
    ($used:literal of $capacity:literal, $share:literal) => {
        Tile {
            capacity: $capacity,
            used: $used,
            share: $share,
        }
    };
}

pub(crate) static CROWDS: [Crowd; 6] = [
    // Room in every tile.
    [tile!(0 of 2, 0); RECORDS],
    // Some tiles full, some nearly so, with nets waiting.
    [
        tile!(3 of 8, 1801800),
        tile!(4 of 5, 2594592),
        tile!(2 of 12, 1441440),
        tile!(5 of 5, 0),
        tile!(0 of 5, 2882880),
        tile!(3 of 3, 0),
    ],
    // No capacity at the driver and at another tile.
    [
        tile!(0 of 0, 0),
        tile!(0 of 1, 720720),
        tile!(3 of 4, 0),
        tile!(1 of 2, 360360),
        tile!(0 of 0, 0),
        tile!(1 of 9, 1441440),
    ],
    // A site in every other tile.
    [
        tile!(0 of 1, 0),
        tile!(0 of 0, 0),
        tile!(1 of 3, 720720),
        tile!(0 of 0, 0),
        tile!(0 of 2, 5405400),
        tile!(0 of 1, 0),
    ],
    // No capacity at all.
    [tile!(0 of 0, 0); RECORDS],
    // The largest capacity with one site left, and small shares.
    [
        tile!(65534 of 65535, 0),
        tile!(0 of 3, 1),
        tile!(0 of 1, 2),
        tile!(1 of 2, 3),
        tile!(2 of 3, 4),
        tile!(3 of 4, 5),
    ],
];

impl Tile {
    // The capacity less the use, and none where the use is above it.
    fn spare(self) -> u16
        ensures { result ≡ spare_in self }
    {
        self.capacity.saturating_sub(self.used)
    }

    // What a site costs: there is one to be had only where the capacity exceeds the use.
    fn price<P: Pricing>(self) -> Option<P>
        ensures { result ≡ price_in P.Cost P.Pricing.priced self }
    {
        (self.used < self.capacity).then(|| P::price(self.capacity, self.used, self.share))
    }
}

// The spare sites at each index.
pub(crate) fn spare_along(crowd: Crowd) -> [u16; RECORDS]
    ensures { result ≡ spare_along crowd }
{
    crowd.map(Tile::spare)
}

// The price at an index; none past the tiles that are told of.
fn price_at<P: Pricing>(crowd: &Crowd, index: usize) -> Option<P>
    ensures { result ≡ price_at P.Cost P.Pricing.priced crowd.now index }
{
    crowd.get(index)?.price()
}

// Writes the price at each index.
pub(crate) fn write_prices<P: Pricing>(crowd: &Crowd, prices: &mut [Option<P>])
    ensures { prices.new ≡ prices_along P.Cost P.Pricing.priced (length prices.old) crowd.now }
{
    for (index, price) in prices.iter_mut().enumerate() {
        *price = price_at(crowd, index);
    }
}
