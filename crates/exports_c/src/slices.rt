// The calls over typed slices, each by the function of that name, `_old_way` left off, in `exports`, for hosts that hold floats, and for
// comparisons.
ghost use Rattle.std.specs.Prelude.{◌≡◌, [], ◌∷◌, length};
ghost use Rattle.sums.specs.Rows.{rows_from};
ghost use Rattle.sums.specs.Sums.{zero32};
ghost use Rattle.sums.specs.Refusals.{cells_of, Cleared};
ghost use Rattle.labels.specs.declared.mode.Mode.TheVariants.{Strict, OldWay};
ghost use Rattle.labels.specs.Label.{distances_of};
ghost use Rattle.labels.specs.Call.{label_call as label_call_lem};
ghost use Rattle.kmeans.specs.Call.{kmeans_call};
ghost use Rattle.grouping.specs.Call.{grouping_call};
ghost use Rattle.exports.specs.Exports.{LabelsGave, config_of as config_of_lem, KMeansGave, settings_of as settings_of_lem, GroupGave};

use labels::mode::Mode;

// Labelling of many rows, over typed slices: 0, or the refusal's number, 9 where a row is unplaced; the unplaced rows are 0 after a refusal.
#[unsafe(no_mangle)]
pub extern "C" fn families_label_rows(
    rows: u32,
    dim: u32,
    k: u32,
    values: &[f32],
    centroids: &[f32],
    cells: &mut [u16],
    unplaced: &mut u32,
) -> u32
    ensures { let n = length cells.old in
        LabelsGave (label_call_lem Strict rows dim k values.now centroids.now n n) n result cells.new unplaced.new }
{
    exports::slices::families_label_rows(
        Mode::Strict,
        rows,
        dim,
        k,
        values,
        centroids,
        cells,
        unplaced,
    )
}

// The same in the old way: unplaced rows have label 0, and are counted.
#[unsafe(no_mangle)]
pub extern "C" fn families_label_rows_old_way(
    rows: u32,
    dim: u32,
    k: u32,
    values: &[f32],
    centroids: &[f32],
    cells: &mut [u16],
    unplaced: &mut u32,
) -> u32
    ensures { let n = length cells.old in
        LabelsGave (label_call_lem OldWay rows dim k values.now centroids.now n n) n result cells.new unplaced.new }
{
    exports::slices::families_label_rows(
        Mode::OldWay,
        rows,
        dim,
        k,
        values,
        centroids,
        cells,
        unplaced,
    )
}

// Labelling with each row's distance, +0.0 after a refusal.
#[unsafe(no_mangle)]
pub extern "C" fn families_place_rows(
    rows: u32,
    dim: u32,
    k: u32,
    values: &[f32],
    centroids: &[f32],
    cells: &mut [u16],
    distances: &mut [f32],
    unplaced: &mut u32,
) -> u32
    ensures { let n = length cells.old in let m = length distances.old in
        let answer = label_call_lem Strict rows dim k values.now centroids.now n m in
        LabelsGave answer n result cells.new unplaced.new × (distances.new ≡ cells_of zero32 m distances_of answer) }
{
    exports::slices::families_place_rows(
        Mode::Strict,
        rows,
        dim,
        k,
        values,
        centroids,
        cells,
        distances,
        unplaced,
    )
}

// The same in the old way: the distance is infinite exactly where the row is unplaced.
#[unsafe(no_mangle)]
pub extern "C" fn families_place_rows_old_way(
    rows: u32,
    dim: u32,
    k: u32,
    values: &[f32],
    centroids: &[f32],
    cells: &mut [u16],
    distances: &mut [f32],
    unplaced: &mut u32,
) -> u32
    ensures { let n = length cells.old in let m = length distances.old in
        let answer = label_call_lem OldWay rows dim k values.now centroids.now n m in
        LabelsGave answer n result cells.new unplaced.new × (distances.new ≡ cells_of zero32 m distances_of answer) }
{
    exports::slices::families_place_rows(
        Mode::OldWay,
        rows,
        dim,
        k,
        values,
        centroids,
        cells,
        distances,
        unplaced,
    )
}

// K-means over typed slices: 0, or the refusal's number, 9 where the restart kept leaves a row unplaced; the objective, the restart kept and
// its unplaced rows are +0.0, 0 and 0 after a refusal.
#[unsafe(no_mangle)]
pub extern "C" fn families_kmeans(
    rows: u32,
    dim: u32,
    k: u32,
    iterations: u32,
    restarts: u32,
    points: u32,
    block: u32,
    spherical: u32,
    draws: &[u32],
    values: &[f32],
    labels: &mut [u16],
    centroids: &mut [f32],
    objective: &mut f64,
    restart: &mut u32,
    unplaced: &mut u32,
    training: &mut [f32],
) -> u32
    ensures fact { let lent = length labels.old ∷ length centroids.old ∷ length training.old ∷ [] in
        let config = config_of_lem iterations restarts points block spherical in
        KMeansGave (kmeans_call Strict rows dim k config draws.now values.now lent) (length labels.old)
        (length centroids.old) result labels.new centroids.new objective.new restart.new
        unplaced.new }
    ensures cleared { Cleared zero32 training.new }
{
    exports::slices::families_kmeans(
        Mode::Strict,
        rows,
        dim,
        k,
        iterations,
        restarts,
        points,
        block,
        spherical,
        draws,
        values,
        labels,
        centroids,
        objective,
        restart,
        unplaced,
        training,
    )
}

// The same in the old way.
#[unsafe(no_mangle)]
pub extern "C" fn families_kmeans_old_way(
    rows: u32,
    dim: u32,
    k: u32,
    iterations: u32,
    restarts: u32,
    points: u32,
    block: u32,
    spherical: u32,
    draws: &[u32],
    values: &[f32],
    labels: &mut [u16],
    centroids: &mut [f32],
    objective: &mut f64,
    restart: &mut u32,
    unplaced: &mut u32,
    training: &mut [f32],
) -> u32
    ensures fact { let lent = length labels.old ∷ length centroids.old ∷ length training.old ∷ [] in
        let config = config_of_lem iterations restarts points block spherical in
        KMeansGave (kmeans_call OldWay rows dim k config draws.now values.now lent) (length labels.old)
        (length centroids.old) result labels.new centroids.new objective.new restart.new
        unplaced.new }
    ensures cleared { Cleared zero32 training.new }
{
    exports::slices::families_kmeans(
        Mode::OldWay,
        rows,
        dim,
        k,
        iterations,
        restarts,
        points,
        block,
        spherical,
        draws,
        values,
        labels,
        centroids,
        objective,
        restart,
        unplaced,
        training,
    )
}

// Grouping over typed slices: 0, or the refusal's number, 9 where a split leaves a row unplaced; the counts are 0 after a refusal.
#[unsafe(no_mangle)]
pub extern "C" fn families_group(
    rows: u32,
    dim: u32,
    limit: u32,
    branching: u32,
    weight: f32,
    budget: u32,
    spherical: u32,
    draws: &[u32],
    values: &[f32],
    order: &mut [u16],
    ends: &mut [u16],
    means: &mut [f32],
    groups: &mut u32,
    splits: &mut u32,
    unplaced: &mut u32,
    gathered: &mut [f32],
    training: &mut [f32],
) -> u32
    ensures fact { let lent = length order.old ∷ length ends.old ∷ length means.old
        ∷ length gathered.old ∷ length training.old ∷ [] in
        let answer = grouping_call rows dim (settings_of_lem Strict limit branching weight budget spherical) draws.now values.now lent in
        GroupGave answer dim (rows_from dim rows values.now) (length order.old) (length ends.old)
        (length means.old) result order.new ends.new means.new groups.new splits.new
        unplaced.new }
    ensures cleared { Cleared zero32 gathered.new × Cleared zero32 training.new }
{
    exports::slices::families_group(
        Mode::Strict,
        rows,
        dim,
        limit,
        branching,
        weight,
        budget,
        spherical,
        draws,
        values,
        order,
        ends,
        means,
        groups,
        splits,
        unplaced,
        gathered,
        training,
    )
}

// The same in the old way: the unplaced rows are summed over the splits.
#[unsafe(no_mangle)]
pub extern "C" fn families_group_old_way(
    rows: u32,
    dim: u32,
    limit: u32,
    branching: u32,
    weight: f32,
    budget: u32,
    spherical: u32,
    draws: &[u32],
    values: &[f32],
    order: &mut [u16],
    ends: &mut [u16],
    means: &mut [f32],
    groups: &mut u32,
    splits: &mut u32,
    unplaced: &mut u32,
    gathered: &mut [f32],
    training: &mut [f32],
) -> u32
    ensures fact { let lent = length order.old ∷ length ends.old ∷ length means.old
        ∷ length gathered.old ∷ length training.old ∷ [] in
        let answer = grouping_call rows dim (settings_of_lem OldWay limit branching weight budget spherical) draws.now values.now lent in
        GroupGave answer dim (rows_from dim rows values.now) (length order.old) (length ends.old)
        (length means.old) result order.new ends.new means.new groups.new splits.new
        unplaced.new }
    ensures cleared { Cleared zero32 gathered.new × Cleared zero32 training.new }
{
    exports::slices::families_group(
        Mode::OldWay,
        rows,
        dim,
        limit,
        branching,
        weight,
        budget,
        spherical,
        draws,
        values,
        order,
        ends,
        means,
        groups,
        splits,
        unplaced,
        gathered,
        training,
    )
}
