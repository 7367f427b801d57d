// What the buffer search keeps: in lent work cells costs with the choices that lead to them, and in tables of its own the
// children of each index. The crate has the types, what tables of them mean in specs/, and the steps from one table to the
// next in proofs/. It uses the theory of the search.
#![tactic(auto)]

pub mod few;

pub use few::Few;

// What is chosen for one child: whether it has a head buffer, and the length that enters it.
#[derive(Clone, Copy)]
pub struct Leg {
    pub head: bool,
    pub entering: u8,
}

// No head buffer, and nothing enters: what is told of a child where nothing is chosen, since each child is told something.
pub const NO_LEG: Leg = Leg {
    head: false,
    entering: 0,
};

// A cost in plain numbers, with what leads to it.
#[derive(Clone, Copy)]
pub struct Priced<V, W> {
    pub cost: V,
    pub what: W,
}

// What is chosen at one index: whether there is a trunk buffer, and the legs of its children, in the order of their
// indices.
#[derive(Clone, Copy)]
pub struct Chosen {
    pub trunk: bool,
    pub legs: Few<Leg>,
}

// A work cell is such an entry, or none where no plan leads.
pub type Entry<V> = Priced<V, Chosen>;

// The cheapest entry of a row: its cost, and the length at which it stands.
pub type Reach<V> = Priced<V, u8>;

// The children of one index, in the order of their indices.
pub type Family = Few<u8>;
