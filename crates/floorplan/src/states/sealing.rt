// Sealing.
ghost use Rattle.std.specs.Prelude.{List};
ghost use Rattle.floor_types.specs.declared.places.NetPlace.{NetPlace};
ghost use Rattle.floor_types.specs.declared.places.RecordPlace.{RecordPlace};
ghost use Rattle.stock.specs.Meaning.{Meaning};
ghost use Rattle.runs.specs.Calls.{Seals};
ghost use Rattle.runs.specs.Histories.{History};
ghost use Rattle.runs.specs.Runs.{Run};
ghost use Rattle.floorplan.specs.States.{entering_world, sealed_world};

use crate::states::{Entering, Floorplan, Sealed};

impl Floorplan<Entering> {
    // Takes the floorplan over and refuses nothing, whatever the stocks and tables then hold.
    fn seal(self) -> Floorplan<Sealed>
        ensures call { (sites wires : Meaning) (nets : List NetPlace) (records : List RecordPlace) → Seals (entering_world self sites wires nets records) (sealed_world result sites wires nets records) }
        ensures goes_on { (sites wires : Meaning) (nets : List NetPlace) (records : List RecordPlace) (h : History) → Run (entering_world self sites wires nets records) h → Run (sealed_world result sites wires nets records) h }
    {
        Floorplan {
            grid: self.grid,
            places: self.places,
            entered: self.entered,
            state: Sealed { made: () },
        }
    }
}
