// The two nets with a regular pattern. One function that took the rule of a pattern would promise what the rule does, and no
// longer a strip or a comb.
ghost use Rattle.std.specs.Prelude.{◌≡◌};
ghost use Rattle.search_speed.specs.Patterns.{strip_record, comb_record};
ghost use Rattle.search_speed.specs.Tables.{table};

use net::records::record::Record;
use std::array;

// How many records each net has.
pub const RECORDS: usize = 256;

const COLUMNS: u16 = 64;

// The record of the strip at this index.
fn strip_at(k: u8) -> Record
    ensures { result ≡ strip_record k }
{
    let k = k as u16;
    Record {
        tile: k / COLUMNS * COLUMNS
            + if k / COLUMNS % 2 == 0 {
                k % COLUMNS
            } else {
                COLUMNS - 1 - k % COLUMNS
            },
        parent: k.saturating_sub(1),
        sink: true,
    }
}

// The record of the comb at this index.
fn comb_at(k: u8) -> Record
    ensures { result ≡ comb_record k }
{
    let k = k as u16;
    Record {
        tile: k % 4 * COLUMNS + k / 4,
        parent: k.saturating_sub(if k % 4 == 0 { 4 } else { 1 }),
        sink: true,
    }
}

// The records of a strip, which goes row by row, there and back again. Every one holds a sink.
pub fn strip() -> [Record; RECORDS]
    ensures { result ≡ table strip_record }
{
    array::from_fn(|k| strip_at(k as u8))
}

// The records of a comb, which has its spine along the first row, and a tooth of three tiles below each tile of it. Every
// one holds a sink.
pub fn comb() -> [Record; RECORDS]
    ensures { result ≡ table comb_record }
{
    array::from_fn(|k| comb_at(k as u8))
}
