// Two layers, whichever lies on the other.
use reserve::percent::Percent;

// A reserve that holds back so many percent, and a closure with one place closed.
#[derive(Clone, Copy)]
pub struct Layers {
    pub percent: Percent,
    pub closed: usize,
}
