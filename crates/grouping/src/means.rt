// The mean of each group (the source's compute_centroid).
ghost use Rattle.std.specs.Prelude.{◌≡◌, ℕ, ◌*◌, ◌≤◌, ◌<◌, length, get_or, take, replicate};
ghost use mathlib.Core.List.{List, ◌∷◌, map, flatten, flat_map};
ghost use Rattle.std.specs.Float.{binary32};
ghost use Rattle.std.specs.Float.Ieee.{div};
ghost use Rattle.sums.specs.Table.{rows_of};
ghost use Rattle.sums.specs.Cells.{Below};
ghost use Rattle.sums.specs.Sums.{zero32, count32};
ghost use Rattle.sums.specs.Refusals.{padded};
ghost use Rattle.grouping.specs.Groups.{mean_of, ends_from};

use labels::positions::{RowNumber, row_place};
use sums::math;
use sums::readings::Rows;

// Each sum divided by the count, and not times its inverse.
fn divide(sums: &mut [f32], count: u16)
    ensures { sums.new ≡ map (λ s. div binary32 s (count32 count)) sums.old }
{
    let n = count as f32;
    for s in sums {
        *s /= n;
    }
}

// The rows of a group added in listed order, and divided by their count.
fn compute_centroid(rows: Rows<'_>, group: &[u16], mean: &mut [f32])
    requires { (length mean.old ≡ rows.dim) × (Below rows.count group.now × (length group.now ≤ 4096)) }
    ensures { mean.new ≡ mean_of rows.entry.dim (rows_of rows.entry) group.now }
{
    mean.fill(0.0);
    for &number in group {
        math::add_row(mean, rows.row(row_place(RowNumber(number))));
    }
    divide(mean, group.len() as u16);
}

// The means of the groups whose ends are given, one after the other; the rest of the cells stays. The ends ascend, none is above the
// number of rows, and rows are numbers below it: so the parts of the row order can be lent.
pub fn fill_means(rows: Rows<'_>, order: &[u16], ends: &[u16], groups: usize, means: &mut [f32])
    requires means_len { (rows.count ≡ length order.now) × ((length means.old ≡ length order.now * rows.dim)
        × ((length ends.now ≡ length order.now) × (length order.now ≤ 4096))) }
    requires below { Below (length order.now) order.now
        × ((i : ℕ) → i < groups → (get_or (0 ∷ ends.now) i 0 ≤ get_or ends.now i 0) × (get_or ends.now i 0 ≤ length order.now)) }
    requires groups_in_bounds { (groups ≤ length ends.now) × (means.old ≡ replicate (length means.old) zero32) }
    ensures { let mean = mean_of rows.entry.dim (rows_of rows.entry) in
        (gs : List (List ℕ)) → order.now ≡ flatten gs → take groups ends.now ≡ ends_from 0 gs
        → means.new ≡ padded zero32 (length means.old) (flat_map mean gs) }
{
    let mut start = 0usize;
    for g in 0..groups {
        let end = usize::from(ends[g]);
        let at = g * rows.dim;
        compute_centroid(rows, &order[start..end], &mut means[at..at + rows.dim]);
        start = end;
    }
}
