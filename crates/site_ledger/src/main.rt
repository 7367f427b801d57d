// A ledger of buffer sites, from start to end: a grid and a counted site stock, a reserve over it and a closure over
// that; sites are taken and given back, and each reason to refuse is met once.
#![tactic(auto)]

use anyhow::Context;
use closure::closure::Closure;
use counted::counted::Counted;
use counted::place::Place;
use grid::shape::Grid;
use reserve::percent::Percent;
use reserve::reserve::Reserve;
use stock::fault::StockFault;
use stock::questions::spare;
use stock::size::Size;
use stock::stock::Stock;

// Sites for each of six tiles, as the block designers left them.
fn sites() -> [Place; 6] {
    [4, 0, 7, 10, 1, 3].map(|capacity| Place { capacity, used: 0 })
}

// One line of the ledger for each place of a stock.
fn print_places<S: Stock>(rt: &impl Print, stock: &S) -> anyhow::Result<()> {
    println!(rt; "  tile  told   use spare")?;
    for tile in 0..stock.places() {
        let told = stock.capacity(tile)?;
        let used = stock.used(tile)?;
        let left = spare(stock, tile)?;
        println!(rt; "{tile:6}{told:6}{used:6}{left:6}")?;
    }
    Ok(())
}

// What a call answered.
fn print_answer(rt: &impl Print, call: &str, answer: Result<(), StockFault>) -> anyhow::Result<()> {
    match answer {
        Ok(()) => println!(rt; "{call}: done")?,
        Err(fault) => println!(rt; "{call}: {fault}")?,
    }
    Ok(())
}

// The takings and givings of the day, over any stock.
fn work<S: Stock>(rt: &impl Print, stock: &mut S) -> anyhow::Result<()> {
    print_answer(rt, "take 3 at tile 0", stock.take(0, 3))?;
    print_answer(rt, "take 5 at tile 3", stock.take(3, 5))?;
    print_answer(rt, "take 4 at tile 3", stock.take(3, 4))?;
    print_answer(rt, "give back 2 at tile 3", stock.give_back(3, 2))?;
    print_answer(rt, "give back 4 at tile 0", stock.give_back(0, 4))?;
    print_answer(rt, "take 1 at tile 6", stock.take(6, 1))
}

// Each layer is laid inside a function over any stock: the checker covers no layer on a layer whose types it knows ('a type
// argument holds a `&mut` and a struct that has a ghost field').

// A closure over any stock: the calls, and a tile closed while it is in use.
fn under_closure<S: Stock>(rt: &impl Print, below: &mut S) -> anyhow::Result<()> {
    let mut sites = Closure::new(below);
    work(rt, &mut sites)?;
    print_answer(rt, "close tile 3", sites.close(3))?;
    print_answer(rt, "take 0 at tile 3", sites.take(3, 0))?;
    print_answer(rt, "give back 0 at tile 3", sites.give_back(3, 0))?;
    println!(rt; "tile 3 closed")?;
    print_places(rt, &sites)
}

// A reserve over any stock, and a closure over that.
fn under_reserve<S: Stock>(rt: &impl Print, below: &mut S, percent: Percent) -> anyhow::Result<()> {
    let mut sites = Reserve::new(below, percent);
    println!(rt; "a quarter held back")?;
    print_places(rt, &sites)?;
    under_closure(rt, &mut sites)
}

// The whole day over a table of sites; then the stock is made again over its table.
fn day(rt: &impl Print, table: &mut [Place], size: Size, percent: Percent) -> anyhow::Result<()> {
    let mut sites = Counted::new(table, size);
    println!(rt; "counted")?;
    print_places(rt, &sites)?;
    under_reserve(rt, &mut sites, percent)
}

fn main(rt: HostRuntime) -> anyhow::Result<()> {
    let grid = Grid::new(2, 3).context("no such grid")?;
    let mut table = sites();
    let size = Counted::size_of(&table).context("too many tiles")?;
    let quarter = Percent::new(25).context("no such percentage")?;
    let rows = grid.rows();
    let columns = grid.columns();
    let tiles = grid.tile_count();
    println!(rt; "{rows} rows, {columns} columns, {tiles} tiles")?;
    print_answer(&rt, "hold back 101 percent", Percent::new(101).map(drop))?;
    day(&rt, &mut table, size, quarter)?;
    println!(rt; "counted again")?;
    print_places(&rt, &Counted::again(&mut table, size))
}
