// Why a search is not made. No program prints it, so it has no `Display`.

// How many work cells it needs, or how many marks.
#[derive(Clone, Copy, PartialEq, Eq, Debug)]
pub enum SearchFault {
    Cells(usize),
    Marks(usize),
}
