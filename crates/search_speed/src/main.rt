// How fast nets are searched: a strip, a comb and a tree grown at random, of 256 records each, by count and then
// congestion. With no argument each net is searched once at the largest limit, and whether a plan is found is told. With
// a number of searches, each net is searched so often at several limits, and the nets searched in a second are told.
#![tactic(auto)]

mod crowd;
mod figures;
mod patterns;
mod searches;
mod tree;

use figures::{allowed, per_second};
use grid::shape::Grid;
use net::limit::Limit;
use net::records::Route;
use net::records::record::Record;
use patterns::{comb, strip};
use searches::found;
use std::time::Instant;
use std::{env, io};
use tree::tree;

// The limits at which the clock is read.
const LIMITS: [usize; 4] = [4, 8, 12, 16];

// The arguments ask for nothing that is known.
#[derive(Drop)]
struct Unknown;

// How many searches the arguments ask for; none with no argument.
fn asked(rt: &HostRuntime) -> io::Result<Result<Option<u32>, Unknown>> {
    let mut words = env::args(rt)?.skip(1);
    Ok(match (words.next(), words.next()) {
        (None, _) => Ok(None),
        (Some(word), None) => word.parse().ok().and_then(allowed).map(Some).ok_or(Unknown),
        (Some(_), Some(_)) => Err(Unknown),
    })
}

// How many plans one search finds at the largest limit.
fn print_plans(rt: &HostRuntime, name: &str, route: &Route) -> io::Result<()> {
    let Ok(limit) = Limit::new(Limit::LARGEST) else {
        return println!(rt; "{name}: no such limit");
    };
    let plans = u8::from(found(1, limit, route).is_some());
    println!(rt; "{name}: {plans} plans")
}

// How fast so many searches go at this limit, and how many buffers they find.
fn print_speed(
    rt: &HostRuntime,
    name: &str,
    limit: Limit,
    route: &Route,
    times: u32,
) -> io::Result<()> {
    let start = Instant::now(rt)?;
    let plan = found(times, limit, route);
    let speed = per_second(times, start.elapsed(rt)?.as_nanos());
    let figure = limit.figure();
    match plan {
        Some(cost) => println!(rt;
            "{name} at limit {figure}: {speed} nets per second, {} buffers",
            cost.first.value
        ),
        None => println!(rt; "{name} at limit {figure}: {speed} nets per second, no plan"),
    }
}

fn print_speeds(rt: &HostRuntime, name: &str, route: &Route, times: u32) -> io::Result<()> {
    for figure in LIMITS {
        if let Ok(limit) = Limit::new(figure) {
            print_speed(rt, name, limit, route, times)?;
        }
    }
    Ok(())
}

fn print_net(
    rt: &HostRuntime,
    name: &str,
    grid: Grid,
    records: &[Record],
    times: Option<u32>,
) -> io::Result<()> {
    let Ok(route) = Route::check(grid, records) else {
        return println!(rt; "{name}: no route");
    };
    match times {
        Some(times) => print_speeds(rt, name, &route, times),
        None => print_plans(rt, name, &route),
    }
}

// What is told of a net differs by `times` in one place, so it is handed down, and no closure for either.
fn print_nets(rt: &HostRuntime, times: Option<u32>) -> io::Result<()> {
    let Ok(grid) = Grid::new(64, 64) else {
        return println!(rt; "no such grid");
    };
    print_net(rt, "strip", grid, &strip(), times)?;
    print_net(rt, "comb", grid, &comb(), times)?;
    print_net(rt, "tree", grid, &tree(grid), times)
}

fn main(rt: HostRuntime) -> io::Result<()> {
    match asked(&rt)? {
        Ok(times) => print_nets(&rt, times),
        Err(Unknown) => println!(rt;
            "usage: search_speed [SEARCHES], with 1 to 1000000 searches of each net at each limit"
        ),
    }
}
