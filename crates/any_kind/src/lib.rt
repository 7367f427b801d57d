// Work that is proved once for every kind of cost, and tried at each: nothing of the planner uses this crate. It shows
// that code under the interfaces' bounds can rest on their laws alone, that pairs stand in pairs, and that a kind of a
// stranger's own, whose ties are not equal values, is served like the others. It uses the interfaces and the kinds.
#![tactic(auto)]

pub mod fare;
pub mod fare_cost;
#[cfg(test)]
mod tests;
pub mod three;
pub mod work;
