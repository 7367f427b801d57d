// The law on runs, proved over the calls' relations: no run reaches a false book, the tables of an untouched floorplan
// tell what its calls were handed and accepted, and a hand plan is accepted exactly when it is legal. From this and one
// call of planning that keeps its relation, at any pricing, the whole law follows; and what the search finds keeps that
// relation. Nothing here runs. It uses the statement in `runs`, what that uses, and the search's theorem.
#![tactic(auto)]

ghost use Rattle.runs.specs.Histories.{History};
ghost use Rattle.runs.specs.Law.{HandPlansExact, TablesStayTrue};
ghost use Rattle.runs.specs.Plans.{Choice, prices_of};
ghost use Rattle.runs.specs.Runs.{BookTrue, Run};
ghost use Rattle.runs.specs.Worlds.{World, being_entered, sealed};
ghost use Rattle.run_law.specs.Found.{FoundPlans};
ghost use Rattle.run_law.specs.Whole.{WholeFromCall};

use cost::{Cost, Pricing};

// Whatever the calls of a run were handed and answered.
pub fn runs_stand()
    ensures books { (w : World) (h : History) → Run w h → BookTrue w h }
    ensures tables { TablesStayTrue }
    ensures hand_plans { HandPlansExact }
{}

// In a sealed floorplan, whatever plan is chosen, if it is as planning at this pricing says.
pub fn whole_from_call<P: Pricing>()
    ensures { (choose : Choice P) → WholeFromCall (prices_of P.Cost P.Pricing.priced) choose sealed }
{}

// Planning that answers and leaves what the search finds is planning as the law has it, at every pricing.
pub fn found_plans<P: Pricing>()
    ensures { FoundPlans (prices_of P.Cost P.Pricing.priced) }
{}
