// The open stock: as many places as it is told, each with room for 65,535, and a use for each in a table of its own.
//
// It refuses a taking only where the use would pass 65,535. The crate uses the crates `refusal` and `stock`.
#![tactic(auto)]

pub mod wide;
