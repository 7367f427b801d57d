// The theory of the buffer search: a search over the indices of a net that joins children one by one, and the theorem
// that it finds a cheapest legal layout of buffers, or that there is none, whatever the cost kind. Nothing here runs; the
// code over work cells is shown equal to this search elsewhere. It uses the laws and the interface of cost kinds.
#![tactic(auto)]

ghost use Rattle.search_theory.specs.Search.{SearchStands};
ghost use Rattle.search_theory.specs.Costs.{kind_of};

use cost::Cost;

// The search answers a legal layout that no legal layout undercuts, or there is none.
pub fn search_stands<C: Cost>()
    ensures { SearchStands (kind_of C.Cost) }
{}
