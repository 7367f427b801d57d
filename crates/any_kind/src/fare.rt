// A kind of cost of a stranger's own: coins, which are compared, and stamps, which are not.
#[derive(Clone, Copy)]
pub struct Fare {
    pub coins: u16,
    pub stamps: u16,
}
