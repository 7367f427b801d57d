// The pair of two costs. Its bounds stand on the type itself: a pair whose first kind is not strict cannot be named.
use crate::costs::{Cost, Strict};

#[derive(Clone, Copy)]
pub struct Pair<A: Strict, B: Cost> {
    pub first: A,
    pub second: B,
}
