// Layers on layers: one function proved once over any stock, called at closure over reserve over counted, and at
// reserve over closure over open.
//
// It shows what a host learns of a stock, or of a table, that it lent once the layers over it have ended: only the
// uses have changed, so that the counted stock can be made again over its table. The crate uses the stocks.
#![tactic(auto)]

pub mod filling;
pub mod hosts;
pub mod layered;
pub mod layers;
