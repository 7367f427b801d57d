// The grid of tiles that a chip is cut into: how tiles and boundaries are numbered, and which tiles are neighbours.
// It promises what each question answers for every number handed to it, that a tile's number and its place tell the
// same, and that boundary numbers fit pairs of neighbours one to one. It uses numbers only.
#![tactic(auto)]

pub mod shape;
