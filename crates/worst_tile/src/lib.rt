// Worst tile: how full the fullest tile is that buffers were put into, in thousandths of its capacity. The sum of two
// is the larger. The crate promises that worst tile is a cost kind and a pricing; it is not strict, since a sum can hide
// which of two was less, and so it has no place as the first of a pair. It uses the interfaces and their laws.
#![tactic(auto)]

pub mod amount;
pub mod as_cost;

pub use amount::WorstTile;
