// The check of a plan made by hand, against the length rule and the spare sites along its route. It promises that a plan
// is accepted exactly where it is legal, and which refusal every other gets. It uses nets, the length rule and the tables
// of a plan.
#![tactic(auto)]

ghost use Rattle.std.specs.Prelude.{◌≡◌, length, is_ok, Decides};
ghost use Rattle.refusal.specs.Told.{told_by};
ghost use Rattle.net.specs.Checked.{records_of};
ghost use Rattle.net.specs.Lowest.{lowest, fault_of};
ghost use Rattle.length_rule.specs.Gates.{listed, there};
ghost use Rattle.length_rule.specs.Legal.{Legal};
ghost use Rattle.length_rule.specs.Refusals.{mark_fault, over_limit, gate_fault, site_fault, plan_fault, plan_refusal, told};

use length_rule::{Gate, Gates, PlanFault};
use net::limit::Limit;
use net::records::Route;
use plan::gates::gates_of;
use plan::lengths;
use plan::marks::mark_at;
use plan::needs::needs;

// The largest mark, and that of index 0: bytes, as hosts lend marks.
const MOST: u8 = 3;

const NONE: u8 = 0;

// Refuses the lowest index with a mark that it may not have. This and the two scans below stand apart: one function for
// them would take each test as a closure, and owe its clause.
fn check_marks(marks: &[u8]) -> Result<(), PlanFault>
    ensures { fault_of result ≡ lowest (mark_fault marks.now) (length marks.now) }
{
    for (index, mark) in marks.iter().enumerate() {
        let most = if index == 0 { NONE } else { MOST };
        if *mark > most {
            return Err(PlanFault::Mark(index));
        }
    }
    Ok(())
}

// Refuses a gate of this index that drives more than the limit.
fn check_gate(limit: Limit, index: usize, gate: Option<Gate>) -> Result<(), PlanFault>
    ensures { fault_of result ≡ over_limit limit.value index (there gate) }
{
    match gate {
        Some(gate) if gate.drives > limit.figure() => Err(PlanFault::Drives(index, gate.drives)),
        _ => Ok(()),
    }
}

// Refuses the first of the gates of this index that drives more than the limit.
fn check_gates_of(limit: Limit, index: usize, gates: Gates) -> Result<(), PlanFault>
    ensures { fault_of result ≡ over_limit limit.value index (listed gates) }
{
    check_gate(limit, index, gates.driver)?;
    check_gate(limit, index, gates.head)?;
    check_gate(limit, index, gates.trunk)
}

// Refuses the lowest index with a gate that drives more than the limit.
fn check_gates(limit: Limit, route: &Route, marks: &[u8]) -> Result<(), PlanFault>
    ensures { fault_of result ≡ lowest (gate_fault limit.value (records_of route.now) marks.now) (length (records_of route.now)) }
{
    // By index: over a `zip` of records and lengths it stays open which of them were passed before a refusal.
    let lengths = lengths::hanging(route, marks);
    for (index, record) in route.records().iter().enumerate() {
        let mark = mark_at(marks, index);
        let parent = usize::from(record.parent);
        check_gates_of(limit, index, gates_of(mark, parent, index, lengths[index]))?;
    }
    Ok(())
}

// Refuses the lowest index whose tile needs more than its spare sites.
fn check_sites(route: &Route, spare: &[u16], marks: &[u8]) -> Result<(), PlanFault>
    ensures { fault_of result ≡ lowest (site_fault (records_of route.now) spare.now marks.now) (length (records_of route.now)) }
{
    let needed = needs(route, marks);
    for (index, sites) in needed[..route.records().len()].iter().enumerate() {
        if *sites > spare.get(index).copied().unwrap_or(0) {
            return Err(PlanFault::Sites(index));
        }
    }
    Ok(())
}

// Refuses what the first of the checks to fail refuses. This stands apart from `check_plan`: in one function with it the
// compiler keeps three copies of the tables, and a net of one record takes twice the time.
fn check_in_order(limit: Limit, route: &Route, spare: &[u16], marks: &[u8]) -> Result<(), PlanFault>
    ensures { fault_of result ≡ plan_fault limit.value (records_of route.now) spare.now marks.now }
{
    let count = route.records().len();
    if marks.len() != count {
        return Err(PlanFault::Marks(count));
    }
    check_marks(marks)?;
    check_gates(limit, route, marks)?;
    check_sites(route, spare, marks)
}

// Accepts a plan exactly where it is legal under this limit and with these spare sites along the route. Refused with 19
// and how many marks are needed; then at the lowest index with 20 for a mark above 3, or not 0 at index 0; then with 21,
// the index and the length for a gate that drives more than the limit, a head gate before a trunk gate; then with 22
// where the tile of an index needs more than its spare sites.
pub fn check_plan(limit: Limit, route: &Route, spare: &[u16], marks: &[u8]) -> Result<(), PlanFault>
    ensures answer { fault_of result ≡ plan_fault limit.value (records_of route.now) spare.now marks.now }
    ensures told { told_by told result ≡ plan_refusal limit.value (records_of route.now) spare.now marks.now }
    ensures exactly { Decides (is_ok result) (Legal limit.value (records_of route.now) spare.now marks.now) }
{
    check_in_order(limit, route, spare, marks)
}
