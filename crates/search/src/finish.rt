// The row of an index, from the table of its children.
ghost use Rattle.std.specs.Prelude.{◌≡◌, ℕ, suc, ◌+◌, ◌-◌, ◌*◌, ◌<◌, ◌≤◌, true, false, length, if◌then◌else◌, Some, None, nat_eq, slice_index_or};
ghost use Rattle.length_rule.specs.Costs.{kth_price};
ghost use Rattle.search_theory.specs.Entries.{cheaper as less, cheapest as cheapest_of};
ghost use Rattle.search_theory.specs.Joining.{charged as paid, chosen as decided, plain, trunked, finish as finished};
ghost use Rattle.search_cells.specs.Cells.{as_joined, as_chosen, row_in, line_in, table_of, five_rows};
ghost use Rattle.search_theory.specs.Costs.{kind_of};

use crate::least::{cheaper, cheapest};
use crate::merge::{ROWS, charged};
use crate::places::nth_row;
use cost::Cost;
use net::limit::Limit;
use plan_cost::kth_price;
use search_cells::{Chosen, Entry, Priced};

fn chosen<P: Cost>(trunk: bool, t: Option<Entry<P::Cell>>) -> Option<Entry<P::Cell>>
    ensures { as_chosen P.Cost.held result ≡ decided trunk (as_joined P.Cost.held t) }
{
    t.map(|x| Priced {
        what: Chosen { trunk, ..x.what },
        ..x
    })
}

// The cheapest of a table's row.
fn level<P: Cost>(row: &[Option<Entry<P::Cell>>]) -> Option<Entry<P::Cell>>
    ensures { as_joined P.Cost.held result ≡ cheapest_of (kind_of P.Cost) (length row.now) (line_in P.Cost.held row.now) }
{
    let cell_at = |j|
        requires { j < length row.now }
        ensures { result ≡ slice_index_or row.entry.now j None }
    { row[j] };
    cheapest::<P, Chosen, _>(row.len(), cell_at)
}

// No table has more rows.
fn most(n: usize) -> usize
    ensures within { result ≤ 5 }
    ensures below { result ≤ n }
    ensures same { result < 5 → result ≡ n }
{
    n.min(ROWS)
}

// The table of an index: a row for each number of head buffers at its children.
#[derive(Drop)]
pub(crate) struct Table<'a, P: Cost> {
    pub limit: Limit,
    pub cells: &'a [Option<Entry<P::Cell>>],
    ghost within: { 5 * (limit.value + 1) ≤ length cells.now },
}

impl<'a, P: Cost> Table<'a, P> {
    fn row(&self, h: usize) -> &[Option<Entry<P::Cell>>]
        requires { h < 5 }
        ensures wide { length result.now ≡ self.now.limit.value + 1 }
        ensures cells { (e : ℕ) → e ≤ self.now.limit.value → slice_index_or result.now e None ≡ slice_index_or self.now.cells.now (h * (self.now.limit.value + 1) + e) None }
    {
        nth_row(self.cells, self.limit, h)
    }

    // The cheapest of the length `e` in the first `rows` rows.
    fn column(&self, rows: usize, e: usize) -> Option<Entry<P::Cell>>
        requires most { rows ≤ 5 }
        requires reach { e ≤ self.now.limit.value }
        ensures { as_joined P.Cost.held result ≡ cheapest_of (kind_of P.Cost) rows (λ h. table_of P.Cost.held self.now.cells.now (self.now.limit.value + 1) h e) }
    {
        let cell_at = |h|
            requires below { h < 5 }
            requires reach { e ≤ self.now.limit.value }
            ensures { result ≡ slice_index_or self.entry.now.cells.now (h * (self.entry.now.limit.value + 1) + e) None }
        { self.row(h)[e] };
        cheapest::<P, Chosen, _>(rows, cell_at)
    }

    // The cheapest of the first `rows` rows, with a buffer more.
    fn driven(&self, rows: usize, price: Option<P>) -> Option<Entry<P::Cell>>
        requires { rows ≤ 5 }
        ensures { as_joined P.Cost.held result ≡ cheapest_of (kind_of P.Cost) rows (λ h. paid (kind_of P.Cost) (kth_price P.Cost.nothing P.Cost.plus price h) (cheapest_of (kind_of P.Cost) (suc self.now.limit.value) (λ j. table_of P.Cost.held self.now.cells.now (self.now.limit.value + 1) h j))) }
    {
        let row_driven = |h|
            requires { h < 5 }
            ensures { as_joined P.Cost.held result ≡ paid (kind_of P.Cost) (kth_price P.Cost.nothing P.Cost.plus price h) (cheapest_of (kind_of P.Cost) (suc self.entry.now.limit.value) (λ j. table_of P.Cost.held self.entry.now.cells.now (self.entry.now.limit.value + 1) h j)) }
        { charged::<P>(kth_price::<P>(price, h), level::<P>(self.row(h))) };
        cheapest::<P, Chosen, _>(rows, row_driven)
    }

    // The cheapest with a trunk buffer, if `free`: an option as it is, which `then` would wrap in another.
    fn trunk(&self, free: bool, spare: u16, price: Option<P>) -> Option<Entry<P::Cell>>
        ensures { as_chosen P.Cost.held result ≡ (if free then trunked (kind_of P.Cost) self.now.limit.value spare (kth_price P.Cost.nothing P.Cost.plus price) (five_rows (table_of P.Cost.held self.now.cells.now (self.now.limit.value + 1))) else None) }
    {
        if free {
            chosen::<P>(true, self.driven(most(spare as usize), price))
        } else {
            None
        }
    }

    // The cheapest of the length `e`; `other` has the length 0.
    fn best(&self, spare: u16, e: usize, other: Option<Entry<P::Cell>>) -> Option<Entry<P::Cell>>
        requires { e ≤ self.now.limit.value }
        ensures { as_chosen P.Cost.held result ≡ less (kind_of P.Cost) (plain (kind_of P.Cost) spare (five_rows (table_of P.Cost.held self.now.cells.now (self.now.limit.value + 1))) e) (if nat_eq e 0 then as_chosen P.Cost.held other else None) }
    {
        let own = chosen::<P>(false, self.column(most(spare as usize + 1), e));
        if e == 0 {
            cheaper::<P, Chosen>(own, other)
        } else {
            own
        }
    }

    // The row of the index. There may be a trunk buffer if `free`.
    pub(crate) fn finish(
        &self,
        row: &mut [Option<Entry<P::Cell>>],
        free: bool,
        spare: u16,
        price: Option<P>,
    )
        requires { length row.old ≡ self.now.limit.value + 1 }
        ensures { (e : ℕ) → e ≤ self.now.limit.value → row_in P.Cost.held row.new e ≡ finished (kind_of P.Cost) self.now.limit.value free spare (kth_price P.Cost.nothing P.Cost.plus price) (five_rows (table_of P.Cost.held self.now.cells.now (self.now.limit.value + 1))) e }
    {
        let other = self.trunk(free, spare, price);
        for (e, cell) in row.iter_mut().enumerate() {
            *cell = self.best(spare, e, other);
        }
    }
}
