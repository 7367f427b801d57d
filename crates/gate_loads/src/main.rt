// The gates of a few small nets: for each plan, every gate with the tile that it stands in and the length that it
// drives, and what the check says of the plan, so that a person can follow the length rule by eye.
#![tactic(auto)]

use grid::shape::Grid;
use hand_plan::check_plan;
use length_rule::Gate;
use net::limit::Limit;
use net::records::Route;
use net::records::record::Record;
use plan::gates::gates_of;
use plan::lengths;
use std::io;

fn at(tile: u16, parent: u16, sink: bool) -> Record {
    Record { tile, parent, sink }
}

// A line for each gate of the plan.
fn print_gates(rt: &impl Print, route: &Route, marks: &[u8]) -> io::Result<()> {
    let records = route.records();
    let hanging = lengths::hanging(route, marks);
    for (index, ((record, mark), hangs)) in records.iter().zip(marks).zip(hanging).enumerate() {
        let gates = gates_of(*mark, usize::from(record.parent), index, hangs);
        let kinds = [
            ("driver", gates.driver),
            ("head", gates.head),
            ("trunk", gates.trunk),
        ];
        for (kind, gate) in kinds {
            let Some(Gate { drives, stands }) = gate else {
                continue;
            };
            if let Some(Record { tile, .. }) = records.get(stands) {
                println!(rt; "{index:6} {kind:6} in tile {tile} drives {drives}")?;
            }
        }
    }
    Ok(())
}

fn print_plan(
    rt: &impl Print,
    route: &Route,
    figure: usize,
    spare: &[u16],
    marks: &[u8],
) -> io::Result<()> {
    println!(rt; "limit {figure}, spare sites {spare:?}, marks {marks:?}")?;
    print_gates(rt, route, marks)?;
    let Ok(limit) = Limit::new(figure) else {
        return println!(rt; "  no such limit");
    };
    match check_plan(limit, route, spare, marks) {
        Ok(()) => println!(rt; "  legal"),
        Err(fault) => println!(rt; "  refused with {fault}"),
    }
}

// The route of these records on a grid of these sides, if they are one.
fn route_on(rows: usize, columns: usize, records: &[Record]) -> Option<Route> {
    let grid = Grid::new(rows, columns).ok()?;
    Route::check(grid, records).ok()
}

// An `io::Result`, so that a write that fails is told as the library tells it.
fn main(rt: HostRuntime) -> io::Result<()> {
    let branches = [
        at(1, 0, false),
        at(2, 0, false),
        at(3, 1, true),
        at(0, 0, true),
    ];
    if let Some(route) = route_on(1, 4, &branches) {
        println!(rt; "A driver with branches of two tiles and of one")?;
        print_plan(&rt, &route, 3, &[0; 4], &[0; 4])?;
        print_plan(&rt, &route, 2, &[0; 4], &[0; 4])?;
    }
    let join = [
        at(3, 0, false),
        at(4, 0, false),
        at(1, 1, true),
        at(7, 1, true),
    ];
    if let Some(route) = route_on(3, 3, &join) {
        println!(rt; "A driver, a join, and two sinks beside the join")?;
        print_plan(&rt, &route, 1, &[0, 2, 0, 0], &[0, 0, 1, 1])?;
        print_plan(&rt, &route, 1, &[0, 1, 0, 0], &[0, 0, 1, 1])?;
        print_plan(&rt, &route, 2, &[0, 1, 0, 0], &[0, 2, 0, 0])?;
    }
    Ok(())
}
