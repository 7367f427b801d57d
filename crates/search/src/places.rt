// Where a row begins.
ghost use Rattle.std.specs.Prelude.{◌≡◌, ℕ, ◌+◌, ◌-◌, ◌*◌, ◌^◌, ◌<◌, ◌≤◌, length, drop, None, slice_index_or};

use net::limit::Limit;

// How many cells a row has.
pub(crate) fn width(limit: Limit) -> usize
    ensures { result ≡ limit.value + 1 }
{
    limit.figure() + 1
}

// Row `k` of rows of so many cells.
pub(crate) fn nth_row<T>(rows: &[Option<T>], limit: Limit, k: usize) -> &[Option<T>]
    requires { (k + 1) * (limit.value + 1) ≤ length rows.now }
    ensures wide { length result.now ≡ limit.value + 1 }
    ensures cells { (e : ℕ) → e ≤ limit.value → slice_index_or result.now e None ≡ slice_index_or rows.now (k * (limit.value + 1) + e) None }
{
    let width = width(limit);
    &rows[k * width..(k + 1) * width]
}

// The last of some rows of so many cells; no cell where there is no row.
pub(crate) fn last_row<T>(rows: &[Option<T>], width: usize) -> &[Option<T>]
    ensures { result.now ≡ drop (length rows.now - width) rows.now }
{
    &rows[rows.len().saturating_sub(width)..]
}

// The cell at `e`; there is none past the row's end.
pub(crate) fn cell<T: Copy>(row: &[Option<T>], e: usize) -> Option<T>
    ensures { result ≡ slice_index_or row.now e None }
{
    row.get(e).copied().flatten()
}
