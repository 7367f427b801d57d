// A net that is grown at random: tile by tile, each beside one that stands.
ghost use Rattle.std.specs.Prelude.{◌≡◌, take};
ghost use Rattle.search_speed.specs.Tree.{next_dice, tile_beside, stands, sprout, standing, standing_after, grown};

use crate::patterns::RECORDS;
use arrayvec::ArrayVec;
use grid::shape::Grid;
use net::records::record::Record;

// How often the dice are thrown: enough to fill the tree.
const THROWS: usize = 8192;

// The tiles of a grid of 64 rows and columns.
const TILES: u32 = 4096;

const COLUMNS: u32 = 64;

// Linear congruential dice of 32 bits.
fn next_dice(dice: u32) -> u32
    ensures { result ≡ next_dice dice }
{
    dice.wrapping_mul(1664525).wrapping_add(1013904223)
}

// The tile left of this one, right of it, above it or below it, on a grid of 64 rows and columns. Numbers go round at
// its ends, so that past an edge the tile told is no neighbour. A side is a number, as the dice tell it.
fn tile_beside(tile: u16, side: u32) -> u16
    ensures { result ≡ tile_beside tile side }
{
    let step = match side {
        0 => TILES - 1,
        1 => 1,
        2 => TILES - COLUMNS,
        _ => COLUMNS,
    };
    ((tile as u32 + step) % TILES) as u16
}

// Whether a tile stands at one of these records.
fn stands(records: &[Record], tile: u16) -> bool
    ensures { result ≡ stands records.now tile }
{
    records.iter().any(|record| record.tile == tile)
}

// The record that a throw adds to these: a tile beside one of them, both picked by the upper half of the dice's bits,
// unless there are none, the grid has no such tile, or it stands already.
fn sprout(grid: Grid, records: &[Record], dice: u32) -> Option<Record>
    ensures { result ≡ sprout grid records.now dice }
{
    if records.is_empty() {
        return None;
    }
    let pick = (dice >> 16) as u16;
    let parent = pick as usize % records.len();
    let from = records[parent].tile;
    let tile = tile_beside(from, (dice >> 24) % 4);
    if !grid.neighbours(from as usize, tile as usize) || stands(records, tile) {
        return None;
    }
    Some(Record {
        tile,
        parent: parent as u16,
        sink: true,
    })
}

// One throw, which may add a record to these. A full tree stays.
fn grow(grid: Grid, records: &mut ArrayVec<Record, RECORDS>, dice: u32)
    ensures { records.new.items ≡ standing_after grid records.old.items dice }
{
    if records.is_full() {
        return;
    }
    if let Some(record) = sprout(grid, records.as_slice(), dice) {
        records.push(record);
    }
}

// The records of the tree after all the throws, its driver in the middle of a grid of 64 rows and columns. Where fewer
// stand than there are places, the driver's record is in those behind them.
pub fn tree(grid: Grid) -> [Record; RECORDS]
    ensures table { result ≡ (grown grid 8192).records }
    ensures standing { take (grown grid 8192).count result ≡ standing (grown grid 8192) }
{
    let driver = Record {
        tile: 2080,
        parent: 0,
        sink: true,
    };
    let mut records = ArrayVec::new();
    records.push(driver);
    let mut dice = 1;
    for _throw in 0..THROWS {
        dice = next_dice(dice);
        grow(grid, &mut records, dice);
    }
    let mut table = [driver; RECORDS];
    table[..records.len()].copy_from_slice(records.as_slice());
    table
}
