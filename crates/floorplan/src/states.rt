// A floorplan and its states. The calls stand in the modules below, which see the fields.
ghost use Rattle.std.specs.Prelude.{◌≤◌};
ghost use Rattle.runs.specs.Refusals.{most_net_places};

use grid::shape::Grid;

mod sealing;

// The state of a floorplan that nets are entered into. No host makes one: its field is private.
#[derive(Drop)]
pub struct Entering {
    made: (),
}

// The state of a floorplan that is planned. No host makes one either.
#[derive(Drop)]
pub struct Sealed {
    made: (),
}

// A floorplan in the state S: its grid, the net places at opening, and how many nets were entered.
#[derive(Drop)]
pub struct Floorplan<S> {
    grid: Grid,
    places: usize,
    entered: usize,
    state: S,
    ghost some_places: { 1 ≤ places },
    ghost places_fit: { places ≤ most_net_places },
    ghost listed: { entered ≤ places },
}
