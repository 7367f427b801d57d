// The tables of a plan: a plan is a mark for each index of a route, made by a search or by hand. The crate computes what
// hangs at each index, the gates of an index, and what each tile needs. It promises that each answer is the rule's. It
// uses nets and the length rule.
#![tactic(auto)]

pub mod gates;
pub mod lengths;
pub mod marks;
pub mod needs;
