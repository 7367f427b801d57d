// The cheapest of several, and the cheapest entry of a row.
ghost use Rattle.std.specs.Prelude.{◌≡◌, ℕ, ◌<◌, ◌≤◌, length};
ghost use Rattle.search_theory.specs.Joining.{tagged as tag, best_entry as least_of};
ghost use Rattle.search_cells.specs.Cells.{as_chosen, as_reached, row_in, lesser, LeastOf};
ghost use Rattle.search_theory.specs.Costs.{kind_of};

use cost::Cost;
use search_cells::{Entry, Priced, Reach};

// The cheaper of two, the first where they tie.
pub(crate) fn cheaper<P: Cost, W: Copy>(
    a: Option<Priced<P::Cell, W>>,
    b: Option<Priced<P::Cell, W>>,
) -> Option<Priced<P::Cell, W>>
    ensures { result ≡ lesser (kind_of P.Cost) P.Cost.held a b }
{
    // Matched one after the other: a `match (a, b)` copies both, and the search is a tenth slower.
    match a {
        None => b,
        Some(x) => match b {
            None => Some(x),
            Some(y) => {
                if P::from_cell(x.cost).at_most(P::from_cell(y.cost)) {
                    Some(x)
                } else {
                    Some(y)
                }
            }
        },
    }
}

// The cheapest of what `cell` answers at 0 to `n` - 1, the first of those that tie. A loop: a `fold` asks that `cell` may be
// called at any number, and these may only below `n`.
pub(crate) fn cheapest<P: Cost, W: Copy, F: Fn(usize) -> Option<Priced<P::Cell, W>>>(
    n: usize,
    cell: F,
) -> Option<Priced<P::Cell, W>>
    requires { (k : ℕ) → k < n → F.pre cell k }
    ensures { LeastOf (kind_of P.Cost) P.Cost.held n (λ k x. F.post cell k x) result }
{
    let mut best: Option<Priced<P::Cell, W>> = None;
    for k in 0..n {
        best = cheaper::<P, W>(best, cell(k));
    }
    best
}

// What a row's cell says of the length at which it stands.
pub(crate) fn tagged<P: Cost>(cell: Option<Entry<P::Cell>>, e: u8) -> Option<Reach<P::Cell>>
    ensures { as_reached P.Cost.held result ≡ tag e (as_chosen P.Cost.held cell) }
{
    cell.map(|x| Priced {
        cost: x.cost,
        what: e,
    })
}

// The cheapest cell of a row.
pub(crate) fn best_entry<P: Cost>(row: &[Option<Entry<P::Cell>>]) -> Option<Reach<P::Cell>>
    requires { length row.now ≤ 256 }
    ensures { as_reached P.Cost.held result ≡ least_of (kind_of P.Cost) (length row.now) (row_in P.Cost.held row.now) }
{
    // Here and wherever a row is read in a loop, by index: with the checked reads of `cell` a comb is searched a seventh slower.
    let tagged_at = |e|
        requires below { e < length row.now }
        requires small { e < 256 }
        ensures { as_reached P.Cost.held result ≡ tag e (row_in P.Cost.held row.entry.now e) }
    { tagged::<P>(row[e], e as u8) };
    cheapest::<P, u8, _>(row.len(), tagged_at)
}
