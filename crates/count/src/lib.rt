// Count: what buffers cost where each counts the same. A count is a number up to a ceiling at which sums stop. The
// crate promises that count is a strict kind, a cost kind and a pricing, and that one site costs 1. It uses the
// interfaces and their laws.
#![tactic(auto)]

pub mod amount;
pub mod as_cost;
pub mod as_strict;

pub use amount::Count;
