// The k-means call, whole: any call is answered, with an objective or with its refusal.
ghost use Rattle.std.specs.Prelude.{◌≡◌, ◌&&◌, [], ◌∷◌, ◌*◌, ◌≤◌, ◌<◌, length, replicate, OnOk};
ghost use Rattle.sums.specs.Sums.{zero32};
ghost use Rattle.sums.specs.Refusals.{within, Cleared};
ghost use Rattle.sums.specs.Refused.{number_in};
ghost use Rattle.kmeans.specs.Inside.{Limits};
ghost use Rattle.kmeans.specs.Call.{ranges_fit as ranges_fit_lem, lengths_fit as lengths_fit_lem, kmeans_refusal, kmeans_call, Gives};

use crate::config::KMeansConfig;
use crate::restart;
use labels::mode::Mode;
use sums::cursor::Draws;
use sums::readings::Rows;
use sums::refusals::Refusal;

// What an accepted call is told: the objective, the number of the restart kept, and its unplaced rows.
#[derive(Clone, Copy)]
pub struct Outcome {
    pub objective: f64,
    pub restart: u32,
    pub unplaced: u32,
}

// The lengths of what a call is lent.
#[derive(Clone, Copy)]
pub struct Lent {
    pub values: usize,
    pub labels: usize,
    pub centroids: usize,
    pub training: usize,
}

// The settings are in range.
fn settings_fit(config: KMeansConfig) -> bool
    ensures { result ≡ (within 1 100 config.niter && within 1 16 config.nredo
        && within 0 4096 config.max_points_per_centroid && within 1 32768 config.decode_block_size) }
{
    (1..=100).contains(&config.niter)
        && (1..=16).contains(&config.nredo)
        && (0..=4096).contains(&config.max_points_per_centroid)
        && (1..=32768).contains(&config.decode_block_size)
}

// Every number is in range.
#[tactic(auto, unfolding(crate::specs::Call::ranges_fit))]
fn ranges_fit(rows: u32, dim: u32, k: u32, config: KMeansConfig) -> bool
    ensures { result ≡ ranges_fit_lem rows dim k config }
{
    (1..=4096).contains(&rows)
        && (1..=64).contains(&dim)
        && (1..=64).contains(&k)
        && settings_fit(config)
}

// Every slice is of its length; the numbers are in range.
#[tactic(auto, unfolding(crate::specs::Call::lengths_fit, sums::specs::Refusals::same_all))]
fn lengths_fit(rows: usize, dim: usize, k: usize, lent: Lent) -> bool
    requires { (rows ≤ 4096) × ((dim ≤ 64) × (k ≤ 64)) }
    ensures { result ≡ lengths_fit_lem rows dim k lent.values (lent.labels ∷ lent.centroids ∷ lent.training ∷ []) }
{
    let cells = rows * dim;
    lent.values == cells
        && lent.labels == rows
        && lent.centroids == k * dim
        && lent.training == cells
}

// The refusals that are found before anything is touched: the lowest number.
#[tactic(auto, unfolding(crate::specs::Call::kmeans_refusal, sums::specs::Refusals::lowest_from), using(crate::proofs::Calls::ranged))]
fn check(
    rows: u32,
    dim: u32,
    k: u32,
    config: KMeansConfig,
    draws: usize,
    lent: Lent,
) -> Result<(), Refusal>
    ensures refused { number_in result ≡ kmeans_refusal rows dim k config draws lent.values (lent.labels ∷ lent.centroids ∷ lent.training ∷ []) }
    ensures fits { OnOk result ((Limits dim k rows × ((k ≤ rows) × ((config.max_points_per_centroid ≤ 4096) × (0 < config.decode_block_size))))
        × ((lent.labels ≡ rows) × ((lent.values ≡ rows * dim) × ((lent.centroids ≡ k * dim) × ((lent.training ≡ rows * dim) × (0 < draws)))))) }
{
    if !ranges_fit(rows, dim, k, config) {
        return Err(Refusal::Range);
    }
    if !lengths_fit(rows as usize, dim as usize, k as usize, lent) {
        return Err(Refusal::Length);
    }
    if rows < k {
        return Err(Refusal::FewRows);
    }
    if !(1..=4096).contains(&draws) {
        return Err(Refusal::Draws);
    }
    Ok(())
}

// The answer: nothing is touched where a number from 1 to 4 refuses the call, else the run is made; after 9 the cells are blank again
// (02 (iii)).
fn answer(
    mode: Mode,
    rows: u32,
    dim: u32,
    k: u32,
    config: KMeansConfig,
    draws: &[u32],
    values: &[f32],
    labels: &mut [u16],
    centroids: &mut [f32],
    training: &mut [f32],
) -> Result<Outcome, Refusal>
    requires { (labels.old ≡ replicate (length labels.old) 65535) × (centroids.old ≡ replicate (length centroids.old) zero32) }
    ensures { let lent = length labels.old ∷ length centroids.old ∷ length training.old ∷ [] in
        Gives (kmeans_call mode rows dim k config draws.now values.now lent)
        (length labels.old) (length centroids.old) result labels.new centroids.new }
{
    let lent = Lent {
        values: values.len(),
        labels: labels.len(),
        centroids: centroids.len(),
        training: training.len(),
    };
    check(rows, dim, k, config, draws.len(), lent)?;
    let mut draws = Draws::new(draws);
    let kept = restart::run_kmeans_flat(
        config,
        k as usize,
        &mut draws,
        Rows::new(values, dim as usize, rows as usize),
        labels,
        centroids,
        training,
    );
    if let Err(refusal) = mode.check(kept.unplaced) {
        labels.fill(65535);
        centroids.fill(0.0);
        return Err(refusal);
    }
    Ok(kept)
}

// K-means on what a caller lends (01, 'K-means'): labels and centroids, or the refusal and blank cells; `training` ends all zero.
pub fn run_kmeans_with_config(
    mode: Mode,
    rows: u32,
    dim: u32,
    k: u32,
    config: KMeansConfig,
    draws: &[u32],
    values: &[f32],
    labels: &mut [u16],
    centroids: &mut [f32],
    training: &mut [f32],
) -> Result<Outcome, Refusal>
    ensures fact { let lent = length labels.old ∷ length centroids.old ∷ length training.old ∷ [] in
        Gives (kmeans_call mode rows dim k config draws.now values.now lent)
        (length labels.old) (length centroids.old) result labels.new centroids.new }
    ensures cleared { Cleared zero32 training.new }
{
    labels.fill(65535);
    centroids.fill(0.0);
    let given = answer(
        mode, rows, dim, k, config, draws, values, labels, centroids, training,
    );
    training.fill(0.0);
    given
}
