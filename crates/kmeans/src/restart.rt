// Restarts, and the one that is kept (the source's run_kmeans_flat).
ghost use Rattle.std.specs.Prelude.{◌≡◌, ◌-◌, ◌*◌, ◌≤◌, ◌<◌, length};
ghost use Rattle.sums.specs.Rows.{rows_from};
ghost use Rattle.sums.specs.Table.{rows_of};
ghost use Rattle.sums.specs.Draws.{Drawn};
ghost use Rattle.kmeans.specs.KMeans.{fit_of, result_of, keep_better, restarts_of, kmeans};
ghost use Rattle.kmeans.specs.Inside.{Limits, Restartable, centroids_of, Restarted, Finished, held_of};

use crate::call::Outcome;
use crate::config::{KMeansConfig, Plan, Training};
use crate::{iterations, objective, training};
use labels::nearest;
use sums::cursor::Draws;
use sums::readings::Rows;
use sums::rooms;

// What the final labelling of a restart comes to: the objective, and how many rows are unplaced.
#[derive(Clone, Copy)]
pub struct Scored {
    pub objective: f64,
    pub unplaced: u32,
}

// One restart: k training positions picked as centroids, in picked order, and the iterations.
fn run_restart(train: &Training<'_>, draws: &mut Draws<'_>, centroids: &mut [f32])
    requires { (length centroids.old ≡ train.now.plan.k * train.now.plan.dim) × (train.now.plan.k ≤ train.now.rows.count) }
    ensures { Restarted draws.old draws.new train.now.plan (rows_of train.now.rows) (centroids_of train.now.plan centroids.new) }
{
    let k = train.plan.k;
    let mut room = rooms::room::<u16, 4096>(0);
    let places = &mut room[..train.rows.count];
    draws.pick(places, k);
    training::gather_rows(train.rows, &places[..k], centroids);
    iterations::run_lloyd_iterations(train, draws, centroids);
}

// All rows labelled by the centroids, the objective, and the rows that are unplaced.
fn finish_restart(rows: Rows<'_>, centroids: Rows<'_>, labels: &mut [u16]) -> Scored
    requires { Limits rows.dim centroids.count rows.count × ((centroids.dim ≡ rows.dim) × (length labels.old ≡ rows.count)) }
    ensures { Finished (rows_of rows.entry) (rows_of centroids.entry) labels.new result }
{
    let n = rows.count;
    let mut norms = rooms::room::<f32, 4096>(0.0);
    let mut distances = rooms::room::<f32, 4096>(0.0);
    nearest::compute_norms(rows, &mut norms[..n]);
    let tally = nearest::assign_rows(rows, &norms[..n], centroids, labels, &mut distances[..n]);
    let objective = objective::compute_objective(rows, centroids, labels);
    Scored {
        objective,
        unplaced: tally.unplaced as u32,
    }
}

// The first restart: it is kept so far.
fn first_restart(
    train: &Training<'_>,
    rows: Rows<'_>,
    draws: &mut Draws<'_>,
    labels: &mut [u16],
    centroids: &mut [f32],
) -> Outcome
    requires { Restartable train.now.plan train.now.rows rows (length labels.old) (length centroids.old) }
    ensures { let all = rows_of rows.entry in
        let fit = fit_of draws.old.list.now train.now.plan (rows_of train.now.rows) in
        let held = held_of labels.new (centroids_of train.now.plan centroids.new) result in
        Drawn draws.old draws.new held (λ n. result_of all 0 (fit n).centroids) (λ n. (fit n).made) }
{
    run_restart(train, draws, centroids);
    let scored = finish_restart(
        rows,
        Rows::new(centroids, train.plan.dim, train.plan.k),
        labels,
    );
    Outcome {
        objective: scored.objective,
        restart: 0,
        unplaced: scored.unplaced,
    }
}

// One restart more, kept where its objective is strictly smaller.
fn try_restart(
    number: u32,
    best: Outcome,
    train: &Training<'_>,
    rows: Rows<'_>,
    draws: &mut Draws<'_>,
    labels: &mut [u16],
    centroids: &mut [f32],
) -> Outcome
    requires { Restartable train.now.plan train.now.rows rows (length labels.old) (length centroids.old) }
    ensures { let all = rows_of rows.entry in
        let fit = fit_of draws.old.list.now train.now.plan (rows_of train.now.rows) in
        let old = held_of labels.old (centroids_of train.now.plan centroids.old) best in
        let held = held_of labels.new (centroids_of train.now.plan centroids.new) result in
        Drawn draws.old draws.new held (λ n. keep_better (result_of all number (fit n).centroids) old) (λ n. (fit n).made) }
{
    let mut floats = rooms::room::<f32, 4096>(0.0);
    let mut cells = rooms::room::<u16, 4096>(0);
    let trial = &mut floats[..train.plan.k * train.plan.dim];
    let trial_labels = &mut cells[..rows.count];
    run_restart(train, draws, trial);
    let scored = finish_restart(
        rows,
        Rows::new(trial, train.plan.dim, train.plan.k),
        trial_labels,
    );
    if scored.objective < best.objective {
        labels.copy_from_slice(trial_labels);
        centroids.copy_from_slice(trial);
        return Outcome {
            objective: scored.objective,
            restart: number,
            unplaced: scored.unplaced,
        };
    }
    best
}

// All restarts: the first is kept until one has a strictly smaller objective.
fn run_restarts(
    restarts: u32,
    train: &Training<'_>,
    rows: Rows<'_>,
    draws: &mut Draws<'_>,
    labels: &mut [u16],
    centroids: &mut [f32],
) -> Outcome
    requires { Restartable train.now.plan train.now.rows rows (length labels.old) (length centroids.old) }
    ensures { let after = restarts_of draws.old.list.now train.now.plan (rows_of train.now.rows) (rows_of rows.entry) (restarts - 1) in
        let held = held_of labels.new (centroids_of train.now.plan centroids.new) result in
        Drawn draws.old draws.new held (λ n. (after n).result) (λ n. (after n).made) }
{
    let mut best = first_restart(train, rows, draws, labels, centroids);
    for number in 1..restarts {
        best = try_restart(number, best, train, rows, draws, labels, centroids);
    }
    best
}

// K-means of rows that are lent, from where the draws stand; every slice is of its length, and what `training` holds afterwards is not said.
pub fn run_kmeans_flat(
    config: KMeansConfig,
    k: usize,
    draws: &mut Draws<'_>,
    rows: Rows<'_>,
    labels: &mut [u16],
    centroids: &mut [f32],
    training: &mut [f32],
) -> Outcome
    requires limits { Limits rows.dim k rows.count × ((k ≤ rows.count)
        × ((config.max_points_per_centroid ≤ 4096) × (0 < config.decode_block_size))) }
    requires labels_len { (length labels.old ≡ rows.count) × ((length centroids.old ≡ k * rows.dim)
        × (length training.old ≡ rows.count * rows.dim)) }
    ensures { let dim = rows.entry.dim in
        let held = held_of labels.new (rows_from dim k centroids.new) result in
        Drawn draws.old draws.new held (λ n. (kmeans draws.old.list.now n config k dim (rows_of rows.entry)).result)
        (λ n. (kmeans draws.old.list.now n config k dim (rows_of rows.entry)).made) }
{
    let aim = training::target(k, rows.count, config.max_points_per_centroid as usize);
    let plan = Plan {
        dim: rows.dim,
        k,
        iterations: config.niter as usize,
        block: config.decode_block_size as usize,
        spherical: config.spherical,
    };
    let mut norms = rooms::room::<f32, 4096>(0.0);
    let gathered = &mut training[..aim * rows.dim];
    training::choose_training(draws, rows, aim, gathered);
    let chosen = Rows::new(gathered, rows.dim, aim);
    nearest::compute_norms(chosen, &mut norms[..aim]);
    let train = Training {
        plan,
        rows: chosen,
        norms: &norms[..aim],
    };
    run_restarts(config.nredo, &train, rows, draws, labels, centroids)
}
