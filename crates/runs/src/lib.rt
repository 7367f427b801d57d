// The law of a floorplan: what its calls promise over whole runs from an opening, whatever the stocks, cost kinds and
// pricings. The statement stands in specs/: worlds, calls as relations, the history of what the calls were handed and
// accepted, runs, the true book, and the law. The crate promises facts that show what the statement says: that the
// refusals leave exactly what may be accepted, which books are true and which false, that each call decides its answer,
// and that runs exist. Nothing here runs. It uses the definitions of grids, stocks, costs, nets, plans and faults.
#![tactic(auto)]

ghost use Rattle.std.specs.Prelude.{◌≡◌, ℕ, [], Option as Maybe, Result as Answer};
ghost use Rattle.net.specs.Lowest.{fault_of};
ghost use Rattle.floor_types.specs.declared.faults.PlanningFault.{PlanningFault};
ghost use Rattle.runs.specs.Worlds.{World};
ghost use Rattle.runs.specs.Plans.{Choice, prices_of};
ghost use Rattle.runs.specs.Tables.{TablesSound, table_fault};
ghost use Rattle.runs.specs.Calls.{Opened, Plans, PlansBy};
ghost use Rattle.runs.specs.Runs.{BookTrue};
ghost use Rattle.runs.specs.Exactly.{DecidedBy, RefusalsExact};
ghost use Rattle.runs.specs.Facts.{BooksTell, AnswersDecided, CostsDecided};
ghost use Rattle.runs.specs.Sample.{RunsExist};

use cost::{Cost, Pricing};

// The tables are refused exactly when they are not sound, and each call exactly when it may not be accepted.
pub fn refusals_exact()
    ensures tables { (w : World) → DecidedBy (table_fault w) (TablesSound w) }
    ensures calls { RefusalsExact }
{}

// An opening's book is true. One site or wire used too many or too few, or a filed plan with an overloaded gate, makes a
// false one.
pub fn books_tell()
    ensures opening { (w : World) → Opened w → BookTrue w [] }
    ensures books { BooksTell }
{}

// Two answers to the same call in the same world are equal; of planning, by whatever pricing, it is the refusal.
pub fn answers_decided()
    ensures planning { (w : World) (k cells : ℕ) (f g : Maybe PlanningFault) (u v : World) → Plans w k cells f u → Plans w k cells g v → f ≡ g }
    ensures others { AnswersDecided }
{}

// At a cost type planning does what planning by whatever pricing does, and costs that differ in the choice tie.
pub fn costs_decided<P: Pricing>()
    ensures mixes { (choose : Choice P) (w u : World) (k cells : ℕ) (r : Answer P PlanningFault) → PlansBy (prices_of P.Cost P.Pricing.priced) choose w k cells r u → Plans w k cells (fault_of r) u }
    ensures costs { CostsDecided (prices_of P.Cost P.Pricing.priced) }
{}

// A small floorplan is opened, entered, sealed, planned with 42 work cells, withdrawn and filed.
pub fn runs_exist()
    ensures { RunsExist 42 }
{}
