// One child more, joined to a table of cells in place.
ghost use Rattle.std.specs.Prelude.{◌≡◌, ℕ, suc, ◌+◌, ◌-◌, ◌*◌, ◌<◌, ◌≤◌, true, false, length, Some, None, slice_index_or};
ghost use Rattle.length_rule.specs.Costs.{kth_price};
ghost use Rattle.search_theory.specs.Entries.{cheapest as cheapest_of};
ghost use Rattle.search_theory.specs.Joining.{tagged as tag, join as with_leg, charged as paid, step};
ghost use Rattle.search_cells.specs.Cells.{as_joined, as_chosen, as_reached, row_in, line_in, HasRoom, joined_row, table_of};
ghost use Rattle.search_theory.specs.Costs.{kind_of};

use crate::least::{best_entry, cheaper, cheapest, tagged};
use crate::places::{cell, last_row, width};
use cost::Cost;
use net::limit::Limit;
use plan_cost::kth_price;
use search_cells::{Chosen, Entry, Leg, Priced, Reach};

// The most head buffers that an index can have at its children, and none: the rows of a table.
pub(crate) const ROWS: usize = 5;

// `t` with the child of `r` joined to it. That it has room is for clauses: no type says it, since hosts lend the cells.
fn join<P: Cost>(
    head: bool,
    t: Option<Entry<P::Cell>>,
    r: Option<Reach<P::Cell>>,
) -> Option<Entry<P::Cell>>
    requires { HasRoom t }
    ensures { as_joined P.Cost.held result ≡ with_leg (kind_of P.Cost) head (as_joined P.Cost.held t) (as_reached P.Cost.held r) }
{
    let (x, y) = (t?, r?);
    let leg = Leg {
        head,
        entering: y.what,
    };
    Some(Priced {
        cost: P::from_cell(x.cost).plus(P::from_cell(y.cost)).to_cell(),
        what: Chosen {
            legs: x.what.legs.push(leg),
            ..x.what
        },
    })
}

// `t` with one site more to pay for.
pub(crate) fn charged<P: Cost>(price: P, t: Option<Entry<P::Cell>>) -> Option<Entry<P::Cell>>
    ensures { as_joined P.Cost.held result ≡ paid (kind_of P.Cost) price (as_joined P.Cost.held t) }
{
    t.map(|x| Priced {
        cost: P::from_cell(x.cost).plus(price).to_cell(),
        ..x
    })
}

// The cheapest way to join the child of the row `child` to the table's row `own`, with no head buffer and the length `j` in
// all.
fn hung<P: Cost>(
    own: &[Option<Entry<P::Cell>>],
    child: &[Option<Entry<P::Cell>>],
    j: usize,
) -> Option<Entry<P::Cell>>
    requires small { j ≤ 256 }
    requires own { j ≤ length own.now }
    requires other { j ≤ length child.now }
    requires room { (k : ℕ) → k < j → HasRoom (slice_index_or own.now k None) }
    ensures { as_joined P.Cost.held result ≡ cheapest_of (kind_of P.Cost) j (λ e. with_leg (kind_of P.Cost) false (line_in P.Cost.held own.now (j - suc e)) (tag e (row_in P.Cost.held child.now e))) }
{
    let hung_at = |e|
        requires small { e < 256 }
        requires below { e < j }
        requires own { j ≤ length own.now }
        requires other { e < length child.now }
        requires room { HasRoom (slice_index_or own.now (j - 1 - e) None) }
        ensures { as_joined P.Cost.held result ≡ with_leg (kind_of P.Cost) false (line_in P.Cost.held own.entry.now (j - suc e)) (tag e (row_in P.Cost.held child.entry.now e)) }
    { join::<P>(false, own[j - 1 - e], tagged::<P>(child[e], e as u8)) };
    cheapest::<P, Chosen, _>(j, hung_at)
}

// The cell of the length `j` in the table's row `own`, with the child of the row `child` joined to it. The row `low` has
// one head buffer less; it is empty where there is none.
fn joined<P: Cost>(
    own: &[Option<Entry<P::Cell>>],
    low: &[Option<Entry<P::Cell>>],
    child: &[Option<Entry<P::Cell>>],
    j: usize,
    first: Option<Reach<P::Cell>>,
    price: P,
) -> Option<Entry<P::Cell>>
    requires small { j ≤ 256 }
    requires own { j ≤ length own.now }
    requires other { j ≤ length child.now }
    requires room { (k : ℕ) → k < j → HasRoom (slice_index_or own.now k None) }
    requires roomy { HasRoom (slice_index_or low.now j None) }
    ensures { as_joined P.Cost.held result ≡ joined_row (kind_of P.Cost) price (line_in P.Cost.held own.now) (row_in P.Cost.held child.now) (line_in P.Cost.held low.now) (as_reached P.Cost.held first) j }
{
    cheaper::<P, Chosen>(
        hung::<P>(own, child, j),
        charged::<P>(price, join::<P>(true, cell(low, j), first)),
    )
}

// The table's row `own` with the child of the row `child` joined to it, from its end on, so that what is written is not
// read again.
fn merge_row<P: Cost>(
    own: &mut [Option<Entry<P::Cell>>],
    low: &[Option<Entry<P::Cell>>],
    child: &[Option<Entry<P::Cell>>],
    first: Option<Reach<P::Cell>>,
    price: P,
)
    requires small { length own.old ≤ 256 }
    requires other { length own.old ≤ length child.now }
    requires room { (k : ℕ) → k < length own.old → HasRoom (slice_index_or own.old k None) }
    requires roomy { (k : ℕ) → k < length own.old → HasRoom (slice_index_or low.now k None) }
    ensures { (j : ℕ) → j < length own.old → line_in P.Cost.held own.new j ≡ joined_row (kind_of P.Cost) price (line_in P.Cost.held own.old) (row_in P.Cost.held child.now) (line_in P.Cost.held low.now) (as_reached P.Cost.held first) j }
{
    // By index: each cell is joined from those before it, which no iterator over the row lends beside it.
    for j in (0..own.len()).rev() {
        own[j] = joined::<P>(own, low, child, j, first, price);
    }
}

// The table with the child of the row `child` joined to it, from its last row on, so that what is written is not read
// again.
pub(crate) fn merge<P: Cost>(
    table: &mut [Option<Entry<P::Cell>>],
    child: &[Option<Entry<P::Cell>>],
    limit: Limit,
    price: Option<P>,
)
    requires own { length table.old ≡ 5 * (limit.value + 1) }
    requires other { length child.now ≡ limit.value + 1 }
    requires room { (h j : ℕ) → h < 5 → j ≤ limit.value → HasRoom (slice_index_or table.old (h * (limit.value + 1) + j) None) }
    ensures { (h j : ℕ) → h < 5 → j ≤ limit.value → table_of P.Cost.held table.new (limit.value + 1) h j ≡ step (kind_of P.Cost) limit.value (kth_price P.Cost.nothing P.Cost.plus price) (table_of P.Cost.held table.old (limit.value + 1)) (row_in P.Cost.held child.now) h j }
{
    let width = width(limit);
    let first = best_entry::<P>(&child[..limit.figure()]);
    // By index: each row is joined from the one before it, so the table is split there anew.
    for h in (0..ROWS).rev() {
        let less = h.saturating_sub(1);
        let (below, rest) = table.split_at_mut(h * width);
        merge_row::<P>(
            &mut rest[..width],
            last_row(below, width),
            child,
            first,
            kth_price::<P>(price, less),
        );
    }
}
