// The counted stock: capacities and uses kept in a lent table of places.
//
// A stock made over a table answers and changes exactly as the trait says, and the table then holds what the stock
// means, so that the stock can be made again over it. It uses the crates `refusal` and `stock`.
#![tactic(auto)]

pub mod counted;
pub mod place;
