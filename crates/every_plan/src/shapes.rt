// The shapes of the nets that are tried, for a grid of five columns.
use net::records::record::Record;

// How many records a shape has at most.
pub(crate) const RECORDS: usize = 6;

// A static calls no function, so a macro writes its records: a tile that hangs from the record of an index, and whether
// it holds a sink.
macro_rules! record {
    ($tile:literal from $parent:literal) => {
        Record {
            tile: $tile,
            parent: $parent,
            sink: false,
        }
    };
    ($tile:literal from $parent:literal, sink) => {
        Record {
            tile: $tile,
            parent: $parent,
            sink: true,
        }
    };
}

pub(crate) static SHAPES: [&[Record]; 12] = [
    // The driver alone, with a sink in its tile.
    &[record!(12 from 0, sink)],
    // A chain of two.
    &[record!(12 from 0), record!(13 from 0, sink)],
    // A chain of four.
    &[
        record!(10 from 0),
        record!(11 from 0),
        record!(12 from 1),
        record!(13 from 2, sink),
    ],
    // A chain of six, with a corner.
    &[
        record!(0 from 0),
        record!(1 from 0),
        record!(2 from 1),
        record!(3 from 2),
        record!(4 from 3),
        record!(9 from 4, sink),
    ],
    // A chain with sinks on its way.
    &[
        record!(0 from 0),
        record!(1 from 0, sink),
        record!(2 from 1),
        record!(3 from 2, sink),
        record!(8 from 3, sink),
        record!(13 from 4, sink),
    ],
    // A fork beside the driver.
    &[
        record!(12 from 0),
        record!(13 from 0),
        record!(8 from 1, sink),
        record!(18 from 1, sink),
    ],
    // A fork in three, two tiles away.
    &[
        record!(10 from 0),
        record!(11 from 0),
        record!(12 from 1),
        record!(7 from 2, sink),
        record!(17 from 2, sink),
        record!(13 from 2, sink),
    ],
    // A driver with four children.
    &[
        record!(12 from 0),
        record!(7 from 0, sink),
        record!(11 from 0, sink),
        record!(13 from 0, sink),
        record!(17 from 0, sink),
    ],
    // A driver with four children, one of which goes on.
    &[
        record!(12 from 0),
        record!(7 from 0, sink),
        record!(11 from 0, sink),
        record!(13 from 0, sink),
        record!(17 from 0),
        record!(22 from 4, sink),
    ],
    // A comb with two teeth.
    &[
        record!(0 from 0),
        record!(1 from 0),
        record!(6 from 1, sink),
        record!(2 from 1),
        record!(7 from 3, sink),
        record!(3 from 3, sink),
    ],
    // Two arms, their records in turn.
    &[
        record!(12 from 0),
        record!(11 from 0),
        record!(13 from 0),
        record!(10 from 1, sink),
        record!(14 from 2, sink),
    ],
    // A child of the driver that comes late.
    &[
        record!(12 from 0),
        record!(13 from 0),
        record!(11 from 0, sink),
        record!(14 from 1, sink),
        record!(17 from 0, sink),
        record!(8 from 1, sink),
    ],
];
