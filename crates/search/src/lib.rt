// The buffer search: for a net, the spare sites and the prices along its route, the marks of a cheapest legal plan and
// their cost, or that no plan is legal; one function for every kind of cost, over lent work cells. It promises that its
// answer is right by the length rule, that the same net, spare sites and prices of tiles with a spare site always give the
// same answer and marks, and which calls it refuses. It allocates nothing. It uses nets, the length rule, the interface of
// cost kinds and the theory of the search.
#![tactic(auto)]

mod families;
pub mod fault;
mod finish;
mod least;
mod marks;
mod merge;
mod nodes;
mod places;
mod prices;
pub mod searching;
mod walk;

pub use fault::SearchFault;
pub use searching::{SPARE_ROWS, search};
