// What a floorplan is lent and what its calls refuse: the places of the two tables, and an enum of faults for each call.
// A fault that comes from below is carried whole, turned by `From`. The crate promises which number and which values
// each fault has, in specs/, and that a conversion keeps the fault that it is given. It uses the faults of grids,
// stocks, routes and plans.
#![tactic(auto)]

pub mod faults;
pub mod places;
