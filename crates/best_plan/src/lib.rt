// A cheapest legal plan for a net, or that there is none: what this means in the terms of the length rule, and the marks
// that the search chooses. The crate promises, for every cost kind, that these marks are legal, that no legal plan costs
// less than they do, that where the search chooses none no plan is legal, and that nothing but the net, its spare sites and
// its prices where a site is spare decides what is chosen. Nothing here runs. It uses the length
// rule's definitions and the theory of the search.
#![tactic(auto)]

ghost use Rattle.best_plan.specs.Cheapest.{PlansStand, ChoiceAlone};
ghost use Rattle.search_theory.specs.Costs.{kind_of};

use cost::Cost;

// Whatever the limit, the route, its spare sites and prices: the marks that the search chooses are a cheapest legal plan,
// or it chooses none and no plan is legal. What it chooses rests on nothing else.
pub fn plans_stand<C: Cost>()
    ensures alone { ChoiceAlone (kind_of C.Cost) }
    ensures best { PlansStand (kind_of C.Cost) }
{}
