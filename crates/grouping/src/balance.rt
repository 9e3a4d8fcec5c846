// Balancing of parts (the source's balance_clusters). Parts stand one after the other, the last first.
ghost use Rattle.std.specs.Prelude.{◌≡◌, true, List, [], ℕ, ◌+◌, ◌-◌, ◌<◌, ◌≤◌, length, get_or, drop};
ghost use Rattle.std.specs.Float.Ieee.{lt};
ghost use Rattle.sums.specs.Table.{rows_of};
ghost use Rattle.sums.specs.Sums.{zero32};
ghost use Rattle.sums.specs.Cells.{Below};
ghost use Rattle.grouping.specs.Balance.{share as share_lem, allowed, closest_of, moved, balance, moves, toward};
ghost use Rattle.grouping.specs.PartsInside.{table_of, Laid, Parted, PartedCells, total, carried};

use labels::positions::{RowNumber, row_place};
use sums::math;
use sums::readings::Rows;

// How many rows lie before those of cluster `c`: those of the clusters above.
fn start_of(sizes: &[u16], c: usize) -> usize
    requires { (c < length sizes.now) × (total sizes.now < 65536) }
    ensures { result ≡ total (drop (c + 1) sizes.now) }
{
    let mut sum = 0usize;
    for &size in &sizes[c + 1..] {
        sum += usize::from(size);
    }
    sum
}

// The row at `from` leaves its place, and goes before what stood at `end`: one stretch is turned by one.
fn carry(part: &mut [u16], from: usize, end: usize)
    requires { (from < length part.old) × (end ≤ length part.old) }
    ensures { part.new ≡ carried from end part.old }
{
    if from < end {
        part[from..end].rotate_left(1);
    } else {
        part[end..from + 1].rotate_right(1);
    }
}

// Row j of cluster `g` leaves its place, later ones move up, and it goes to the end of cluster `r`.
#[tactic(auto, using(crate::proofs::Layouts::start_le))]
fn move_row(part: &mut [u16], sizes: &mut [u16], g: usize, r: usize, j: usize)
    requires g_in_bounds { (g < length sizes.old) × (r < length sizes.old) × (r ≡ g → ⊥) × (j < get_or sizes.old g 0) }
    requires sizes_value { (total sizes.old ≡ length part.old) × (length part.old < 65536) }
    ensures { (ps : List (List ℕ)) → Laid ps part.old sizes.old
        → Laid (moved g r j ps) part.new sizes.new }
{
    let from = start_of(sizes, g) + j;
    let end = start_of(sizes, r) + usize::from(sizes[r]);
    carry(part, from, end);
    sizes[g] -= 1;
    sizes[r] += 1;
}

// The place of the row closest to the centroid: the first row, until one is strictly closer.
fn find_closest_vector_to_centroid(rows: Rows<'_>, part: &[u16], centroid: &[f32]) -> usize
    requires { (length centroid.now ≡ rows.dim) × ((0 < length part.now) × Below rows.count part.now) }
    ensures { (result ≡ closest_of (rows_of rows.entry) centroid.now part.now)
        × (result < length part.now) }
{
    let first = rows.row(row_place(RowNumber(part[0])));
    let mut best = math::l2_distance_sqr(first, centroid);
    let mut place = 0usize;
    for i in 1..part.len() {
        let row = rows.row(row_place(RowNumber(part[i])));
        let apart = math::l2_distance_sqr(row, centroid);
        if apart < best {
            best = apart;
            place = i;
        }
    }
    place
}

// The row of cluster `g` that is closest to cluster `r`'s k-means centroid goes over.
#[tactic(auto, using(crate::proofs::Layouts::start_le))]
fn give_row(
    rows: Rows<'_>,
    centroids: Rows<'_>,
    part: &mut [u16],
    sizes: &mut [u16],
    g: usize,
    r: usize,
)
    requires parted { Parted rows centroids part.old sizes.old }
    requires g_in_bounds { (g < length sizes.old) × (r < length sizes.old) × (r ≡ g → ⊥) × (0 < get_or sizes.old g 0) }
    ensures given { let which = toward (rows_of rows.entry) (rows_of centroids.entry) r in
        (ps : List (List ℕ)) → Laid ps part.old sizes.old
        → Laid (moved g r (which (get_or ps g [])) ps) part.new sizes.new }
    ensures below { Below rows.entry.count part.new }
{
    let from = start_of(sizes, g);
    let end = from + usize::from(sizes[g]);
    let j = find_closest_vector_to_centroid(rows, &part[from..end], centroids.row(r));
    move_row(part, sizes, g, r, j);
}

// At most ten rounds: the first cluster above the allowance gives a row to the first below the share. How many rows moved.
fn run_rounds(
    rows: Rows<'_>,
    centroids: Rows<'_>,
    weight: f32,
    part: &mut [u16],
    sizes: &mut [u16],
) -> u16
    requires parted { Parted rows centroids part.old sizes.old }
    requires sizes_nonzero { (0 < length sizes.old) × (length sizes.old ≤ length part.old) }
    requires weight_value { lt zero32 weight ≡ true }
    ensures { let table = rows_of rows.entry in let centres = rows_of centroids.entry in
        let share = share_lem (length part.old) (length sizes.old) in
        (ps : List (List ℕ)) → Laid ps part.old sizes.old
        → Laid (balance table centres share weight ps) part.new sizes.new
        × (result ≡ moves (toward table centres) share (allowed share weight) 10 ps) }
{
    let share = part.len() / sizes.len();
    let allowance = (share as f32) * (1.0f32 + weight);
    let mut n = 0u16;
    // Kept: 01, 'Forms to use in the code', asks that both searches yield by break, and that the rounds are left by their label.
    'rounds: while n < 10 {
        let mut i = 0usize;
        let giver = loop {
            if i == sizes.len() {
                break 'rounds;
            }
            if allowance < sizes[i] as f32 {
                break i;
            }
            i += 1;
        };
        let mut j = 0usize;
        let receiver = loop {
            if j == sizes.len() {
                break 'rounds;
            }
            if usize::from(sizes[j]) < share {
                break j;
            }
            j += 1;
        };
        give_row(rows, centroids, part, sizes, giver, receiver);
        n += 1;
    }
    n
}

// The same of cells that are lent: readings and centroids are as many rows of `dim` values as there are whole ones.
pub fn balance_clusters(
    values: &[f32],
    dim: usize,
    centroids: &[f32],
    weight: f32,
    part: &mut [u16],
    sizes: &mut [u16],
) -> u16
    requires parted { PartedCells dim values.now centroids.now part.old sizes.old }
    requires sizes_nonzero { (0 < length sizes.old) × (length sizes.old ≤ length part.old) }
    requires weight_value { lt zero32 weight ≡ true }
    ensures { let table = table_of dim values.now in let centres = table_of dim centroids.now in
        let share = share_lem (length part.old) (length sizes.old) in
        (ps : List (List ℕ)) → Laid ps part.old sizes.old
        → Laid (balance table centres share weight ps) part.new sizes.new
        × (result ≡ moves (toward table centres) share (allowed share weight) 10 ps) }
{
    let count = values.len() / dim;
    let k = centroids.len() / dim;
    let rows = Rows::new(&values[..count * dim], dim, count);
    let centres = Rows::new(&centroids[..k * dim], dim, k);
    run_rounds(rows, centres, weight, part, sizes)
}
