// The marks, handed down from the driver's entry.
ghost use Rattle.std.specs.Prelude.{◌≡◌, ℕ, ◌+◌, ◌*◌, ◌<◌, ◌≤◌, [], length, slice_index};
ghost use Rattle.net.specs.Checked.{records_of};
ghost use Rattle.search_theory.specs.Costs.{kind_of};
ghost use Rattle.search_theory.specs.Entries.{what_or};
ghost use Rattle.search_theory.specs.Search.{choice_for, no_choice};
ghost use Rattle.search_cells.specs.Cells.{branch_of, as_chosen, rows_within};
ghost use Rattle.search_cells.specs.Families.{TellsRanks};
ghost use Rattle.best_plan.specs.Chosen.{problem, mark_of};
ghost use Rattle.search.specs.Rows.{BranchForEachChild, BranchForEachChild-prop, handed_mark};

use crate::places::{cell, nth_row};
use cost::Cost;
use net::limit::Limit;
use net::records::{MOST_RECORDS, Route};
use search_cells::{Entry, Leg, NO_LEG};

// The rows of a route's search, in the first of the cells, and the place of each index among its siblings.
#[derive(Drop)]
pub(crate) struct Rows<'a, P: Cost> {
    pub limit: Limit,
    pub route: &'a Route,
    pub ranks: &'a [u8; MOST_RECORDS],
    pub cells: &'a [Option<Entry<P::Cell>>],
    ghost within: { length (records_of route.now) * (limit.value + 1) ≤ length cells.now },
    ghost ranked: { TellsRanks (records_of route.now) ranks.now },
    ghost long: { BranchForEachChild (records_of route.now) (rows_within P.Cost.held cells.now limit.value) } by { BranchForEachChild-prop (records_of route.now) (rows_within P.Cost.held cells.now limit.value) },
}

impl<'a, P: Cost> Rows<'a, P> {
    // The cell of row `k` at the length `e`; there is none past the limit. That `k` is an index of the route is for a clause:
    // a type for such an index would have to name the route.
    fn get(&self, k: usize, e: u8) -> Option<Entry<P::Cell>>
        requires { k < length (records_of self.now.route.now) }
        ensures { as_chosen P.Cost.held result ≡ rows_within P.Cost.held self.now.cells.now self.now.limit.value k e }
    {
        cell(nth_row(self.cells, self.limit, k), e as usize)
    }

    // What the parent of `k`, which the length `e` enters, chose for it.
    fn leg(&self, k: usize, e: u8) -> Leg
        requires one { 0 < k }
        requires inside { k < length (records_of self.now.route.now) }
        ensures { branch_of result ≡ choice_for (problem (kind_of P.Cost) self.now.limit.value (records_of self.now.route.now) [] []) (rows_within P.Cost.held self.now.cells.now self.now.limit.value) k e }
    {
        let parent = self.route.records()[k].parent as usize;
        let Some(x) = self.get(parent, e) else {
            return NO_LEG;
        };
        let legs = x.what.legs.items;
        legs[self.ranks[k] as usize]
    }

    // Whether the index `k`, which the length `e` enters, has a trunk buffer.
    fn trunk(&self, k: usize, e: u8) -> bool
        requires { k < length (records_of self.now.route.now) }
        ensures { result ≡ (what_or no_choice (rows_within P.Cost.held self.now.cells.now self.now.limit.value k e)).trunk }
    {
        self.get(k, e).is_some_and(|x| x.what.trunk)
    }

    // The mark of each index, where the length `e` hangs at the driver.
    pub(crate) fn decide(&self, e: u8, marks: &mut [u8])
        requires room { length marks.old ≡ length (records_of self.now.route.now) }
        ensures { (k : ℕ) → k < length (records_of self.now.route.now) → slice_index marks.new k ≡ handed_mark (problem (kind_of P.Cost) self.now.limit.value (records_of self.now.route.now) [] []) (rows_within P.Cost.held self.now.cells.now self.now.limit.value) e k }
    {
        let mut lengths = [e; MOST_RECORDS];
        marks[0] = mark_of(false, self.trunk(0, e));
        for (k, record) in self.route.records().iter().enumerate().skip(1) {
            let leg = self.leg(k, lengths[record.parent as usize]);
            lengths[k] = leg.entering;
            marks[k] = mark_of(leg.head, self.trunk(k, leg.entering));
        }
    }
}

// The mark of these buffers: a byte, as hosts lend marks.
fn mark_of(head: bool, trunk: bool) -> u8
    ensures { result ≡ mark_of (record { head = head; trunk = trunk }) }
{
    u8::from(head) + 2 * u8::from(trunk)
}
