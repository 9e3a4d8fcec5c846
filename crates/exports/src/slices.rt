// The calls over typed slices, for hosts that hold floats, and for comparisons.
ghost use Rattle.std.specs.Prelude.{◌≡◌, [], ◌∷◌, ℕ, length, Float};
ghost use Rattle.sums.specs.Rows.{rows_from};
ghost use Rattle.sums.specs.Sums.{zero32};
ghost use Rattle.sums.specs.Refusals.{cells_of, Cleared};
ghost use Rattle.sums.specs.Refused.{told};
ghost use Rattle.labels.specs.Label.{distances_of};
ghost use Rattle.labels.specs.Call.{label_call as label_call_lem};
ghost use Rattle.kmeans.specs.Call.{kmeans_call, figures as kmeans_figures};
ghost use Rattle.grouping.specs.Answers.{counted};
ghost use Rattle.grouping.specs.Call.{grouping_call};
ghost use Rattle.exports.specs.Exports.{code_of, figure_of, LabelsGave, on_by as on_by_lem, config_of as config_of_lem};
ghost use Rattle.exports.specs.Exports.{KMeansGave, settings_of as settings_of_lem, GroupGave};

use grouping::config::GroupingConfig;
use grouping::waiting::Counts;
use kmeans::call::Outcome;
use kmeans::config::KMeansConfig;
use labels::call;
use labels::mode::Mode;
use sums::refusals::Refusal;

// The number of unplaced rows, apart from the call: its slices would be followed through both cases of the answer.
#[tactic(auto, unfolding(crate::specs::Exports::code_of, crate::specs::Exports::figure_of))]
fn put_unplaced(answer: Result<u32, Refusal>, unplaced: &mut u32) -> u32
    ensures value { result ≡ code_of (told (λ (n : ℕ). n) answer) }
    ensures unplaced_after { unplaced.new ≡ figure_of 0 (λ (n : ℕ). n) (told (λ (n : ℕ). n) answer) }
{
    match answer {
        Ok(n) => {
            *unplaced = n;
            0
        }
        Err(refusal) => {
            *unplaced = 0;
            u32::from(refusal)
        }
    }
}

// Labelling of many rows, over typed slices: 0, or the refusal's number, 9 where the mode is strict and a row is unplaced; the unplaced rows are 0
// after a refusal. In the old way unplaced rows have label 0, and are counted.
pub fn families_label_rows(
    mode: Mode,
    rows: u32,
    dim: u32,
    k: u32,
    values: &[f32],
    centroids: &[f32],
    cells: &mut [u16],
    unplaced: &mut u32,
) -> u32
    ensures { let n = length cells.old in
        LabelsGave (label_call_lem mode rows dim k values.now centroids.now n n) n result cells.new unplaced.new }
{
    let answer = call::label_rows(mode, rows, dim, k, values, centroids, cells);
    put_unplaced(answer, unplaced)
}

// Labelling with each row's distance, +0.0 after a refusal. In the old way it is infinite exactly where the row is unplaced.
pub fn families_place_rows(
    mode: Mode,
    rows: u32,
    dim: u32,
    k: u32,
    values: &[f32],
    centroids: &[f32],
    cells: &mut [u16],
    distances: &mut [f32],
    unplaced: &mut u32,
) -> u32
    ensures { let n = length cells.old in let m = length distances.old in
        let answer = label_call_lem mode rows dim k values.now centroids.now n m in
        LabelsGave answer n result cells.new unplaced.new × (distances.new ≡ cells_of zero32 m distances_of answer) }
{
    let answer = call::place_rows(mode, rows, dim, k, values, centroids, cells, distances);
    put_unplaced(answer, unplaced)
}

// The objective, the restart kept and its unplaced rows, apart from the call likewise.
#[tactic(auto, unfolding(crate::specs::Exports::code_of, crate::specs::Exports::figure_of))]
fn put_kept(
    answer: Result<Outcome, Refusal>,
    objective: &mut f64,
    restart: &mut u32,
    unplaced: &mut u32,
) -> u32
    ensures value { result ≡ code_of (told kmeans_figures answer) }
    ensures objective_after { (objective.new ≡ figure_of zero32 (λ (f : Float × ℕ × ℕ). f.0) (told kmeans_figures answer))
        × ((restart.new ≡ figure_of 0 (λ (f : Float × ℕ × ℕ). f.1) (told kmeans_figures answer))
        × (unplaced.new ≡ figure_of 0 (λ (f : Float × ℕ × ℕ). f.2) (told kmeans_figures answer))) }
{
    match answer {
        Ok(kept) => {
            *objective = kept.objective;
            *restart = kept.restart;
            *unplaced = kept.unplaced;
            0
        }
        Err(refusal) => {
            *objective = 0.0f64;
            *restart = 0;
            *unplaced = 0;
            u32::from(refusal)
        }
    }
}

// A setting as a number (02 (iv)).
fn on_by(number: u32) -> bool
    ensures { result ≡ on_by_lem number }
{
    number != 0
}

// K-means' settings by their numbers.
fn config_of(
    iterations: u32,
    restarts: u32,
    points: u32,
    block: u32,
    spherical: u32,
) -> KMeansConfig
    ensures { result ≡ config_of_lem iterations restarts points block spherical }
{
    let on = on_by(spherical);
    KMeansConfig {
        niter: iterations,
        nredo: restarts,
        spherical: on,
        max_points_per_centroid: points,
        decode_block_size: block,
    }
}

// K-means over typed slices: 0, or the refusal's number, 9 where the mode is strict and the restart kept leaves a row unplaced; the objective,
// the restart kept and its unplaced rows are +0.0, 0 and 0 after a refusal.
pub fn families_kmeans(
    mode: Mode,
    rows: u32,
    dim: u32,
    k: u32,
    iterations: u32,
    restarts: u32,
    points: u32,
    block: u32,
    spherical: u32,
    draws: &[u32],
    values: &[f32],
    labels: &mut [u16],
    centroids: &mut [f32],
    objective: &mut f64,
    restart: &mut u32,
    unplaced: &mut u32,
    training: &mut [f32],
) -> u32
    ensures fact { let lent = length labels.old ∷ length centroids.old ∷ length training.old ∷ [] in
        let config = config_of_lem iterations restarts points block spherical in
        KMeansGave (kmeans_call mode rows dim k config draws.now values.now lent) (length labels.old)
        (length centroids.old) result labels.new centroids.new objective.new restart.new
        unplaced.new }
    ensures cleared { Cleared zero32 training.new }
{
    let config = config_of(iterations, restarts, points, block, spherical);
    let answer = kmeans::call::run_kmeans_with_config(
        mode, rows, dim, k, config, draws, values, labels, centroids, training,
    );
    put_kept(answer, objective, restart, unplaced)
}

// The numbers of groups, of splits and of unplaced rows, apart from the call.
#[tactic(auto, unfolding(crate::specs::Exports::code_of, crate::specs::Exports::figure_of))]
fn put_counts(
    answer: Result<Counts, Refusal>,
    groups: &mut u32,
    splits: &mut u32,
    unplaced: &mut u32,
) -> u32
    ensures value { result ≡ code_of (told counted answer) }
    ensures groups_after { (groups.new ≡ figure_of 0 (λ (f : ℕ × ℕ × ℕ). f.0) (told counted answer))
        × ((splits.new ≡ figure_of 0 (λ (f : ℕ × ℕ × ℕ). f.1) (told counted answer))
        × (unplaced.new ≡ figure_of 0 (λ (f : ℕ × ℕ × ℕ). f.2) (told counted answer))) }
{
    match answer {
        Ok(counts) => {
            *groups = counts.groups;
            *splits = counts.splits;
            *unplaced = counts.unplaced;
            0
        }
        Err(refusal) => {
            *groups = 0;
            *splits = 0;
            *unplaced = 0;
            u32::from(refusal)
        }
    }
}

// Grouping's settings by its mode and its numbers.
fn settings_of(
    mode: Mode,
    limit: u32,
    branching: u32,
    weight: f32,
    budget: u32,
    spherical: u32,
) -> GroupingConfig
    ensures { result ≡ settings_of_lem mode limit branching weight budget spherical }
{
    let on = on_by(spherical);
    GroupingConfig {
        limit,
        branching,
        weight,
        budget,
        spherical: on,
        mode,
    }
}

// Grouping over typed slices: 0, or the refusal's number, 9 where the mode is strict and a split leaves a row unplaced; the counts are 0 after a
// refusal. In the old way the unplaced rows are summed over the splits.
pub fn families_group(
    mode: Mode,
    rows: u32,
    dim: u32,
    limit: u32,
    branching: u32,
    weight: f32,
    budget: u32,
    spherical: u32,
    draws: &[u32],
    values: &[f32],
    order: &mut [u16],
    ends: &mut [u16],
    means: &mut [f32],
    groups: &mut u32,
    splits: &mut u32,
    unplaced: &mut u32,
    gathered: &mut [f32],
    training: &mut [f32],
) -> u32
    ensures fact { let lent = length order.old ∷ length ends.old ∷ length means.old
        ∷ length gathered.old ∷ length training.old ∷ [] in
        let answer = grouping_call rows dim (settings_of_lem mode limit branching weight budget spherical) draws.now values.now lent in
        GroupGave answer dim (rows_from dim rows values.now) (length order.old) (length ends.old)
        (length means.old) result order.new ends.new means.new groups.new splits.new
        unplaced.new }
    ensures cleared { Cleared zero32 gathered.new × Cleared zero32 training.new }
{
    let config = settings_of(mode, limit, branching, weight, budget, spherical);
    let answer = grouping::call::hierarchical_clustering(
        rows, dim, config, draws, values, order, ends, means, gathered, training,
    );
    put_counts(answer, groups, splits, unplaced)
}
