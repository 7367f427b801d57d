// Searches some hundred small nets in several kinds of cost and compares each answer with trying every plan there is. It
// says how many answers were compared and how many differed. Its contracts say what the plan of each code, the cheapest
// of them all, each verdict and the whole tally are; nothing is promised of what is printed. It uses the search, the check
// of a plan made by hand, the cost of a plan and the kinds of cost.
#![tactic(auto)]

mod comparing;
mod crowds;
mod shapes;
mod tallying;
mod trying;

use congestion::Congestion;
use cost::{Cost, Pair, Pricing};
use count::Count;
use crowds::CROWDS;
use grid::shape::Grid;
use search::SPARE_ROWS;
use search_cells::Entry;
use shapes::{RECORDS, SHAPES};
use std::io;
use tallying::{LIMITS, Tally, tried};
use worst_tile::WorstTile;

// The work cells that the search of any shape needs at the largest limit that is tried.
const CELLS: usize = (RECORDS + SPARE_ROWS) * (LIMITS + 1);

// What one kind of cost gives, with these places for prices and these cells.
fn print_kind<P: Pricing>(
    rt: &HostRuntime,
    kind: &str,
    grid: Grid,
    prices: &mut [Option<P>],
    cells: &mut [Option<Entry<P::Cell>>],
) -> io::Result<()> {
    let Tally {
        compared,
        plans,
        different,
    } = tried(grid, &SHAPES, &CROWDS, prices, cells);
    println!(rt; "{kind}: {compared} answers, {plans} plans, {different} different")
}

// The same, with arrays of its own. A macro makes them where the kind is known, since of an array of a type parameter it
// stays open that it has fewer than 2^63 bytes. Each kind has a function, since in one all the arrays would stand at once.
macro_rules! print_kind {
    ($rt:expr, $name:literal, $grid:expr, $kind:ty) => {{
        let mut prices: [Option<$kind>; RECORDS] = [None; RECORDS];
        let mut cells: [Option<Entry<<$kind as Cost>::Cell>>; CELLS] = [None; CELLS];
        print_kind::<$kind>($rt, $name, $grid, &mut prices, &mut cells)
    }};
}

fn print_count(rt: &HostRuntime, grid: Grid) -> io::Result<()> {
    print_kind!(rt, "count", grid, Count)
}

fn print_congestion(rt: &HostRuntime, grid: Grid) -> io::Result<()> {
    print_kind!(rt, "congestion", grid, Congestion)
}

fn print_worst_tile(rt: &HostRuntime, grid: Grid) -> io::Result<()> {
    print_kind!(rt, "worst tile", grid, WorstTile)
}

fn print_count_then_congestion(rt: &HostRuntime, grid: Grid) -> io::Result<()> {
    print_kind!(rt, "count, then congestion", grid, Pair<Count, Congestion>)
}

fn print_congestion_then_worst_tile(rt: &HostRuntime, grid: Grid) -> io::Result<()> {
    print_kind!(rt, "congestion, then worst tile", grid, Pair<Congestion, WorstTile>)
}

fn print_count_then_congestion_then_worst_tile(rt: &HostRuntime, grid: Grid) -> io::Result<()> {
    print_kind!(rt, "count, then congestion, then worst tile", grid, Pair<Count, Pair<Congestion, WorstTile>>)
}

fn main(rt: HostRuntime) -> io::Result<()> {
    let Ok(grid) = Grid::new(5, 5) else {
        return println!(rt; "no grid");
    };
    print_count(&rt, grid)?;
    print_congestion(&rt, grid)?;
    print_worst_tile(&rt, grid)?;
    print_count_then_congestion(&rt, grid)?;
    print_congestion_then_worst_tile(&rt, grid)?;
    print_count_then_congestion_then_worst_tile(&rt, grid)
}
