// Waiting shares: how much the nets that still wait for their buffers weigh on the sites of a tile. A share counts in
// parts of a unit that every limit divides, so that no share is rounded. The crate promises that the share of a net is
// the unit divided by its limit, that this is exact for every limit that a net can have, and that the share of a tile
// is at most one unit for each net that waits there. It uses the largest limit of a net.
#![tactic(auto)]

ghost use Rattle.std.specs.Prelude.{◌≡◌};
ghost use Rattle.net.specs.Largest.{largest_limit};
ghost use Rattle.shares.specs.Shares.{Adds, AtMostOneEach, Exact, share_of, share_unit};

// The parts that make one use of a site.
pub const SHARE_UNIT: u32 = 720_720;

// What one waiting net of this limit adds to the share of each tile of its route: the unit divided by the limit. No net
// has limit 0; it adds nothing.
pub fn share_of(limit: u8) -> u32
    ensures share { result ≡ share_of share_unit limit }
    ensures exact { Exact largest_limit share_unit limit result }
    ensures adds { Adds share_unit limit result }
    ensures bounded { AtMostOneEach share_unit }
{
    SHARE_UNIT.checked_div(u32::from(limit)).unwrap_or(0)
}
