// The stock: places, each with a capacity and a use. Buffer sites (a place for each tile) and wires (a place for each
// boundary) are kept behind this one trait, and so is every layer that stands on another stock.
//
// The crate says what a stock means, what each of its calls answers and leaves, and which number and values each
// refusal has; and it makes sizes, the one figure that the stocks with a table of their own need. It uses the crate
// `refusal` only.
#![tactic(auto)]

pub mod fault;
pub mod figures;
pub mod questions;
pub mod size;
pub mod stock;
