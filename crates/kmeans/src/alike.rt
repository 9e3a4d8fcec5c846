// A short way for training rows that are all one row, as a group of equal meters has them: one label serves for all, and every refill is
// that row.
ghost use Rattle.std.specs.Prelude.{◌≡◌, true, List, [], ◌∷◌, ℕ, ◌-◌, ◌*◌, ◌≤◌, ◌<◌, length, set, take, replicate, Float};
ghost use Rattle.sums.specs.Rows.{rows_from, row_at};
ghost use Rattle.sums.specs.Table.{rows_of};
ghost use Rattle.sums.specs.Sums.{zero_row};
ghost use Rattle.sums.specs.Draws.{Drawn};
ghost use Rattle.labels.specs.Label.{nearest as nearest_lem, nearests, label_in};
ghost use Rattle.labels.specs.Inside.{Assignable};
ghost use Rattle.labels.specs.Pool.{pool as pool_lem};
ghost use Rattle.kmeans.specs.Steps.{Fit, sums_from, update as update_lem};
ghost use Rattle.kmeans.specs.Inside.{Alone, Alike, Fitted, centroids_of};

use crate::config::{Plan, Training};
use crate::{lloyd, update};
use labels::{nearest, pool};
use sphere::unit;
use sums::cursor::Draws;
use sums::readings::Rows;
use sums::{bits, rooms};

// True only where both hold the same floats: by their bits, since +0.0 and -0.0 are equal and yet differ.
fn same_floats(a: &[f32], b: &[f32]) -> bool
    requires { length a.now ≡ length b.now }
    ensures { result ≡ true → a.now ≡ b.now }
{
    for (j, x) in a.iter().enumerate() {
        if bits::bits_of(*x) != bits::bits_of(b[j]) {
            return false;
        }
    }
    true
}

// True only where every row is the first.
pub fn rows_alike(rows: Rows<'_>) -> bool
    requires { 0 < rows.count }
    ensures { result ≡ true → rows_of rows.entry ≡ replicate rows.entry.count (row_at rows.entry.values.now rows.entry.dim 0) }
{
    let values = rows.values;
    let last = values.len() - rows.dim;
    same_floats(&values[rows.dim..], &values[..last])
}

// The label of one row.
fn label_of(row: Rows<'_>, norm: &[f32], centroids: Rows<'_>) -> usize
    requires { Assignable row centroids norm.now 1 1 × (0 < centroids.count) }
    ensures { (result ≡ label_in (nearest_lem (rows_of centroids.entry) row.entry.values.now)) × (result < centroids.entry.count) }
{
    let mut label = [0u16; 1];
    let mut distance = [0.0f32; 1];
    nearest::assign_rows(row, norm, centroids, &mut label, &mut distance);
    usize::from(label[0])
}

// Cluster c has all the rows, and no other has any.
fn put_alone(c: usize, count: u16, sum: &[f32], counts: &mut [u16], totals: &mut [f32])
    requires { (c < length counts.old) × ((length counts.old ≤ 64) × ((length sum.now ≤ 64)
        × (length totals.old ≡ length counts.old * length sum.now))) }
    ensures counts_after { counts.new ≡ set (replicate (length counts.old) 0) c count }
    ensures totals_after { let dim = length sum.now in let k = length counts.old in
        rows_from dim k totals.new ≡ set (replicate k (zero_row dim)) c sum.now }
{
    counts.fill(0);
    counts[c] = count;
    totals.fill(0.0);
    let at = c * sum.len();
    let end = at + sum.len();
    totals[at..end].copy_from_slice(sum);
}

// One iteration over `count` rows that are all `row` and have the sum `sum`; `spare` has a position for each refill from their pool.
fn run_alike_iteration(
    row: &[f32],
    norm: &[f32],
    count: u16,
    sum: &[f32],
    spare: &[u16],
    draws: &mut Draws<'_>,
    centroids: &mut [f32],
    counts: &mut [u16],
    totals: &mut [f32],
)
    requires { Alone row.now norm.now sum.now spare.now (length counts.old) (length centroids.old) (length totals.old) }
    ensures { (block : ℕ) → let k = length counts.old in let dim = length row.now in
        let rows = replicate count row.now in
        let found = nearests (rows_from dim k centroids.old) rows in
        let after : ℕ → Fit = λ n. update_lem draws.old.list.now k dim block rows n found in
        Alike k dim block count row.now sum.now spare.now
        → Drawn draws.old draws.new (rows_from dim k centroids.new) (λ n. (after n).centroids) (λ n. (after n).made) }
{
    let dim = row.len();
    let k = counts.len();
    let alone = Rows::new(row, dim, 1);
    let c = label_of(alone, norm, Rows::new(centroids, dim, k));
    put_alone(c, count, sum, counts, totals);
    update::update_centroids(
        centroids,
        Rows::new(totals, dim, k),
        counts,
        alone,
        spare,
        draws,
    );
}

// All the iterations asked for.
fn run_alike_iterations(
    plan: Plan,
    row: &[f32],
    norm: &[f32],
    count: u16,
    sum: &[f32],
    spare: &[u16],
    draws: &mut Draws<'_>,
    centroids: &mut [f32],
    counts: &mut [u16],
    totals: &mut [f32],
)
    requires alone { Alone row.now norm.now sum.now spare.now (length counts.old) (length centroids.old) (length totals.old) }
    requires row_len { (length row.now ≡ plan.dim) × (length counts.old ≡ plan.k) }
    ensures { Alike plan.k plan.dim plan.block count row.now sum.now spare.now
        → Fitted draws.old draws.new plan (replicate count row.now) (centroids_of plan centroids.old) (centroids_of plan centroids.new) }
{
    for _ in 0..plan.iterations {
        run_alike_iteration(
            row, norm, count, sum, spare, draws, centroids, counts, totals,
        );
        unit::apply_spherical(plan.spherical, centroids, plan.k, plan.dim);
    }
}

// The sum of all the training rows: as many labels, all 0, put them into one cluster.
fn sum_of(rows: Rows<'_>, sum: &mut [f32])
    requires { (rows.count ≤ 4096) × (length sum.old ≡ rows.dim) }
    ensures { sums_from (zero_row rows.entry.dim ∷ []) (replicate rows.entry.count 0) (rows_of rows.entry) ≡ sum.new ∷ [] }
{
    let mut count = [0u16; 1];
    let mut room = rooms::room::<u16, 4096>(0);
    let labels = &mut room[..rows.count];
    labels.fill(0);
    lloyd::accumulate(rows, labels, &mut count, sum);
}

// How many of the first k positions the pool of so many rows has, whatever their distances.
fn pool_size(rows: usize, block: usize, k: usize) -> usize
    requires { ((0 < k) × (k ≤ 64)) × ((rows ≤ 4096) × (0 < block)) }
    ensures { (result ≤ k) × ((distances : List Float) → length distances ≡ rows → length (take k (pool_lem block distances)) ≡ result) }
{
    let distances = rooms::room::<f32, 4096>(0.0);
    let mut at = [0u16; 64];
    pool::gather_pool(&distances[..rows], block, &mut at[..k], k)
}

// The iterations over rows that are all alike: their sum is worked out once, and of their pool only the size counts.
pub fn run_alike(train: &Training<'_>, draws: &mut Draws<'_>, centroids: &mut [f32])
    requires centroids_len { length centroids.old ≡ train.now.plan.k * train.now.plan.dim }
    requires alike { rows_of train.now.rows ≡ replicate train.now.rows.count (row_at train.now.rows.values.now train.now.rows.dim 0) }
    ensures { Fitted draws.old draws.new train.now.plan (rows_of train.now.rows)
        (centroids_of train.now.plan centroids.old) (centroids_of train.now.plan centroids.new) }
{
    let plan = train.plan;
    let k = plan.k;
    let dim = plan.dim;
    let rows = train.rows.count;
    let width = k * dim;
    let mut cells = [0.0f32; 64];
    let sum = &mut cells[..dim];
    let mut counts = [0u16; 64];
    let mut totals = rooms::room::<f32, 4096>(0.0);
    let spare = [0u16; 64];
    sum_of(train.rows, sum);
    let held = pool_size(rows, plan.block, k);
    run_alike_iterations(
        plan,
        train.rows.row(0),
        &train.norms[..1],
        rows as u16,
        sum,
        &spare[..held],
        draws,
        centroids,
        &mut counts[..k],
        &mut totals[..width],
    );
}
