// Labelling, whole: any call is answered, by labels or by its refusal.
ghost use Rattle.std.specs.Prelude.{◌≡◌, ◌*◌, ◌≤◌, ◌<◌, length, OnOk};
ghost use Rattle.sums.specs.Sums.{zero32};
ghost use Rattle.sums.specs.Refusals.{cells_of};
ghost use Rattle.sums.specs.Refused.{number_in};
ghost use Rattle.labels.specs.Label.{distances_of};
ghost use Rattle.labels.specs.Call.{label_refusal, label_call, Gives};

use crate::mode::Mode;
use crate::nearest;
use sums::readings::Rows;
use sums::refusals::Refusal;

// 1: a number is out of range; 2: a slice is not of its length.
#[tactic(auto, unfolding(crate::specs::Call::label_refusal, sums::specs::Refusals::lowest_from))]
fn check(
    rows: u32,
    dim: u32,
    k: u32,
    values: usize,
    centroids: usize,
    labels: usize,
    distances: usize,
) -> Result<(), Refusal>
    ensures refused { number_in result ≡ label_refusal rows dim k values centroids labels distances }
    ensures fits { OnOk result (((rows ≤ 4096) × ((0 < dim) × ((dim ≤ 64) × (k ≤ 64))))
        × ((values ≡ rows * dim) × ((centroids ≡ k * dim) × ((labels ≡ rows) × (distances ≡ rows))))) }
{
    if !((0..=4096).contains(&rows) && (1..=64).contains(&dim) && (1..=64).contains(&k)) {
        return Err(Refusal::Range);
    }
    let n = rows as usize;
    let width = dim as usize;
    let clusters = k as usize;
    if values == n * width && centroids == clusters * width && labels == n && distances == n {
        Ok(())
    } else {
        Err(Refusal::Length)
    }
}

// The labels of rows against given centroids, and how far each row is from its own (01, 'Sums in stated order'; 02 (ii)), with the number of
// unplaced rows; or the refusal and blank cells, after 9 too, which is found when the labels stand (02 (iii)).
pub fn place_rows(
    mode: Mode,
    rows: u32,
    dim: u32,
    k: u32,
    values: &[f32],
    centroids: &[f32],
    labels: &mut [u16],
    distances: &mut [f32],
) -> Result<u32, Refusal>
    ensures fact { let n = length labels.old in let m = length distances.old in
        Gives (label_call mode rows dim k values.now centroids.now n m) n result labels.new }
    ensures distances_after { let n = length labels.old in let m = length distances.old in
        distances.new ≡ cells_of zero32 m distances_of (label_call mode rows dim k values.now centroids.now n m) }
{
    labels.fill(65535);
    distances.fill(0.0);
    let n = labels.len();
    check(
        rows,
        dim,
        k,
        values.len(),
        centroids.len(),
        n,
        distances.len(),
    )?;
    let width = dim as usize;
    let readings = Rows::new(values, width, n);
    let mut norms = [0.0f32; 4096];
    nearest::compute_norms(readings, &mut norms[..n]);
    let tally = nearest::assign_rows(
        readings,
        &norms[..n],
        Rows::new(centroids, width, k as usize),
        labels,
        distances,
    );
    let unplaced = tally.unplaced as u32;
    if let Err(refusal) = mode.check(unplaced) {
        labels.fill(65535);
        distances.fill(0.0);
        return Err(refusal);
    }
    Ok(unplaced)
}

// The labels alone.
pub fn label_rows(
    mode: Mode,
    rows: u32,
    dim: u32,
    k: u32,
    values: &[f32],
    centroids: &[f32],
    labels: &mut [u16],
) -> Result<u32, Refusal>
    ensures { let n = length labels.old in
        Gives (label_call mode rows dim k values.now centroids.now n n) n result labels.new }
{
    let n = labels.len().min(4096);
    let mut distances = [0.0f32; 4096];
    place_rows(
        mode,
        rows,
        dim,
        k,
        values,
        centroids,
        labels,
        &mut distances[..n],
    )
}
