// What a cost is: the interfaces of a cost kind, a strict kind and a pricing, and the pair of two kinds. The planner is
// proved once for every kind that implements them. Each interface has its meaning as ghost members and its laws beside
// them; the pair promises that it keeps the laws of a cost kind whatever its two kinds are, if the first is strict. The
// crate uses the laws' definitions and theorems only.
#![tactic(auto)]

pub mod costs;
pub mod pair;
pub mod pair_cost;

pub use costs::{Cost, Pricing, Strict};
pub use pair::Pair;
