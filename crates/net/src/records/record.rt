// A record of a net, and what the check of a route refuses.

// A tile of the net, the index of the record that it hangs from (a number, as hosts lend it), and whether it holds a sink. Index 0 is the driver's
// tile and names itself.
#[derive(Clone, Copy, Default, PartialEq, Eq, Debug)]
pub struct Record {
    pub tile: u16,
    pub parent: u16,
    pub sink: bool,
}

// Why records are no route: how many there are, or the lowest index that breaks the rule. No program prints it, so it has
// no `Display`.
#[derive(Clone, Copy, PartialEq, Eq, Debug)]
pub enum RouteFault {
    Count(usize),
    OffGrid(usize),
    Parent(usize),
    Apart(usize),
    Repeated(usize),
    Useless(usize),
}
