// The closure layer: an open or closed mark for each place, and no capacity told where a place is closed.
//
// It stands on any stock, is one itself, and gives the stock below back with only its uses changed. The crate uses the
// crates `refusal`, `stock` and `layer`.
#![tactic(auto)]

pub mod closure;
