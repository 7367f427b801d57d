// The laws that a cost kind keeps, and what keeps them. The crate has definitions in specs/ and theorems in proofs/,
// and nothing to run. It promises that numbers up to a ceiling keep the laws of a cost kind, with the sum that stops at
// the ceiling those of a strict kind too, and that a strict kind first and any kind second keep the laws of a cost
// kind as a pair. It uses no other crate.
#![tactic(auto)]
