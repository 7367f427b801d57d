// The reserve layer: holds back a percentage of each capacity told below it, rounded up.
//
// It stands on any stock, is one itself, and gives the stock below back with only its uses changed. A percentage is a
// value of its own. The crate uses the crates `refusal`, `stock` and `layer`.
#![tactic(auto)]

pub mod percent;
pub mod reserve;
