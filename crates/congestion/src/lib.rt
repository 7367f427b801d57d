// Congestion: what buffers cost in a crowded floorplan. A congestion is a number of thousandths of a use for each spare
// site, up to a ceiling at which sums stop. The crate promises that congestion is a strict kind, a cost kind and a
// pricing, and that its price is the exact fraction rounded down. It uses the interfaces, their laws and the unit of
// shares.
#![tactic(auto)]

pub mod amount;
pub mod as_cost;
pub mod as_strict;

pub use amount::Congestion;
