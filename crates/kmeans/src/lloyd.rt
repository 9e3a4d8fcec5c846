// Lloyd's iterations (the source's run_lloyd_iterations and the counting half of assign_points_for_update).
ghost use Rattle.std.specs.Prelude.{◌≡◌, true, false, ◌&&◌, ℕ, ◌*◌, ◌≤◌, ◌<◌, length, take, replicate, get_or};
ghost use Rattle.sums.specs.Rows.{rows_from};
ghost use Rattle.sums.specs.Table.{rows_of};
ghost use Rattle.sums.specs.Cells.{Below};
ghost use Rattle.sums.specs.Sums.{zero_row};
ghost use Rattle.labels.specs.Pool.{pool as pool_lem};
ghost use Rattle.kmeans.specs.Steps.{counts_from, sums_from};
ghost use Rattle.kmeans.specs.Inside.{Iteration, Fitted, repeats, centroids_of};

use crate::config::Training;
use crate::update;
use labels::{nearest, pool};
use sphere::unit;
use sums::cursor::Draws;
use sums::readings::Rows;
use sums::{math, rooms};

// How many rows each cluster has, and their sums.
pub fn accumulate(training: Rows<'_>, labels: &[u16], counts: &mut [u16], totals: &mut [f32])
    requires labels_len { (length labels.now ≡ training.count) × (length totals.old ≡ length counts.old * training.dim) }
    requires below { Below (length counts.old) labels.now × (length labels.now ≤ 65535) }
    ensures counts_after { counts.new ≡ counts_from (replicate (length counts.old) 0) labels.now }
    ensures totals_after { let k = length counts.old in let dim = training.entry.dim in
        rows_from dim k totals.new ≡ sums_from (replicate k (zero_row dim)) labels.now (rows_of training.entry) }
{
    counts.fill(0);
    totals.fill(0.0);
    for (i, label) in labels.iter().enumerate() {
        let c = usize::from(*label);
        counts[c] += 1;
        let at = c * training.dim;
        math::add_row(&mut totals[at..at + training.dim], training.row(i));
    }
}

fn all_filled(counts: &[u16]) -> bool
    ensures { result ≡ true → (i : ℕ) → i < length counts.now → 0 < get_or counts.now i 0 }
{
    counts.iter().all(|count| *count != 0)
}

// Empty clusters would be filled as before, by the positions in front of both lists and by no draw.
fn refills_repeat(counts: &[u16], new: &[u16], old: &[u16]) -> bool
    ensures { result ≡ true → repeats counts.now new.now old.now ≡ true }
{
    let mut used = 0usize;
    for count in counts {
        if *count == 0 {
            if new.len() <= used || old.len() <= used {
                return false;
            }
            if new[used] != old[used] {
                return false;
            }
            used += 1;
        }
    }
    true
}

// Whether nothing more would change, and how many positions are at hand.
// Kept: no Option, since `Iteration` says of a settled iteration too how many are at hand (`leads`, `held_fits`, `stops`).
#[derive(Clone, Copy)]
pub struct Iterated {
    pub settled: bool,
    pub held: usize,
}

// The positions that empty clusters are filled from, in front of `at`; where no cluster is empty none are gathered.
fn pool_for(filled: bool, distances: &[f32], block: usize, at: &mut [u16]) -> usize
    requires { (0 < length at.old) × ((length distances.now ≤ 65536) × (0 < block)) }
    ensures upper_bound { (result ≤ length at.new) × Below (length distances.now) (take result at.new) }
    ensures at_after { filled ≡ false → take result at.new ≡ take (length at.old) (pool_lem block distances.now) }
{
    if filled {
        return 0;
    }
    let cap = at.len();
    pool::gather_pool(distances, block, at, cap)
}

// One iteration; where it would change nothing, it stops before the update. `before` is what the iteration before told.
fn run_iteration(
    train: &Training<'_>,
    draws: &mut Draws<'_>,
    before: Iterated,
    again: bool,
    centroids: &mut [f32],
    labels: &mut [u16],
    distances: &mut [f32],
    totals: &mut [f32],
    at: &mut [u16],
) -> Iterated
    requires centroids_len { length centroids.old ≡ train.now.plan.k * train.now.plan.dim }
    requires labels_len { (length labels.old ≡ train.now.rows.count) × ((length distances.old ≡ train.now.rows.count)
        × ((length totals.old ≡ train.now.plan.k * train.now.plan.dim) × (length at.old ≡ train.now.plan.k))) }
    requires held_in_bounds { before.held ≤ length at.old }
    ensures { Iteration draws.old draws.new train.now.plan (rows_of train.now.rows)
        (centroids_of train.now.plan centroids.old) (centroids_of train.now.plan centroids.new)
        labels.old labels.new at.old at.new before result again }
{
    let plan = train.plan;
    let rows = train.rows;
    let (k, dim) = (plan.k, plan.dim);
    let mut counted = [0u16; 64];
    let mut kept = [0u16; 64];
    let counts = &mut counted[..k];
    let prior = &mut kept[..k];
    let centres = Rows::new(centroids, dim, k);
    let tally = nearest::assign_rows(rows, train.norms, centres, labels, distances);
    accumulate(rows, labels, counts, totals);
    let filled = all_filled(counts);
    prior.copy_from_slice(at);
    let held = pool_for(filled, distances, plan.block, at);
    let repeated = refills_repeat(counts, &at[..held], &prior[..before.held]);
    // Nothing more would change: the labels are those of the iteration before, and so are the refills.
    if again && tally.same && repeated {
        return Iterated {
            settled: true,
            held,
        };
    }
    let sums = Rows::new(totals, dim, k);
    update::update_centroids(centroids, sums, counts, rows, &at[..held], draws);
    unit::apply_spherical(plan.spherical, centroids, k, dim);
    Iterated {
        settled: false,
        held,
    }
}

// All the iterations asked for; those after a settled one would change nothing, and are not run.
fn run_iterations(
    train: &Training<'_>,
    draws: &mut Draws<'_>,
    centroids: &mut [f32],
    labels: &mut [u16],
    distances: &mut [f32],
    totals: &mut [f32],
    at: &mut [u16],
)
    requires centroids_len { length centroids.old ≡ train.now.plan.k * train.now.plan.dim }
    requires labels_len { (length labels.old ≡ train.now.rows.count) × ((length distances.old ≡ train.now.rows.count)
        × ((length totals.old ≡ train.now.plan.k * train.now.plan.dim) × (length at.old ≡ train.now.plan.k))) }
    ensures { Fitted draws.old draws.new train.now.plan (rows_of train.now.rows)
        (centroids_of train.now.plan centroids.old) (centroids_of train.now.plan centroids.new) }
{
    let mut state = Iterated {
        settled: false,
        held: 0,
    };
    for i in 0..train.plan.iterations {
        state = run_iteration(
            train,
            draws,
            state,
            0 < i,
            centroids,
            labels,
            distances,
            totals,
            at,
        );
        if state.settled {
            return;
        }
    }
}

// The iterations with room for N labels and distances of the rows and N values of the clusters' sums.
fn run_in<const N: usize>(train: &Training<'_>, draws: &mut Draws<'_>, centroids: &mut [f32])
    requires centroids_len { length centroids.old ≡ train.now.plan.k * train.now.plan.dim }
    requires room { ((train.now.rows.count ≤ N) × (train.now.plan.k * train.now.plan.dim ≤ N)) × (N ≤ 4096) }
    ensures { Fitted draws.old draws.new train.now.plan (rows_of train.now.rows)
        (centroids_of train.now.plan centroids.old) (centroids_of train.now.plan centroids.new) }
{
    let rows = train.rows.count;
    let width = train.plan.k * train.plan.dim;
    let mut labels = rooms::room::<u16, N>(0);
    let mut distances = rooms::room::<f32, N>(0.0);
    let mut totals = rooms::room::<f32, N>(0.0);
    let mut at = [0u16; 64];
    run_iterations(
        train,
        draws,
        centroids,
        &mut labels[..rows],
        &mut distances[..rows],
        &mut totals[..width],
        &mut at[..train.plan.k],
    );
}

// The iterations over any rows, in as much room as they need: the room is cleared whenever it is made, which a call over few rows would
// notice.
pub fn run_any(train: &Training<'_>, draws: &mut Draws<'_>, centroids: &mut [f32])
    requires { length centroids.old ≡ train.now.plan.k * train.now.plan.dim }
    ensures { Fitted draws.old draws.new train.now.plan (rows_of train.now.rows)
        (centroids_of train.now.plan centroids.old) (centroids_of train.now.plan centroids.new) }
{
    let width = train.plan.k * train.plan.dim;
    if train.rows.count <= 256 && width <= 256 {
        run_in::<256>(train, draws, centroids);
    } else {
        run_in::<4096>(train, draws, centroids);
    }
}
