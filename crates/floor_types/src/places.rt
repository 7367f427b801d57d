// The places of the two tables that a floorplan is lent. Nothing keeps a host from writing other numbers into them:
// every call tests them first.

// A net's place: its limit, how many records it has, and whether it is planned. An empty plan is a plan, so the marks
// cannot tell.
#[derive(Clone, Copy)]
pub struct NetPlace {
    pub limit: u8,
    pub records: u16,
    pub planned: bool,
}

// A record's place: the record as entered, and its mark. The record's numbers stand one by one, since a host may write any
// of them.
#[derive(Clone, Copy)]
pub struct RecordPlace {
    pub tile: u16,
    pub parent: u16,
    pub sink: bool,
    pub mark: u8,
}
