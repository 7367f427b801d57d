// Nets as they are handed over: the length limit, and the records of a route with the check that makes a route of them.
// It promises that no limit lies outside 1 to 16, that the check answers exactly what the rules refuse, lowest index
// first, and that a route, once checked, stays what was checked. It uses the grid.
#![tactic(auto)]

pub mod limit;
pub mod records;
