// Closure, whole: any call is answered, by the indices listed or by its refusal.
ghost use Rattle.std.specs.Prelude.{◌≡◌, ◌*◌, ◌≤◌, ◌<◌, length, replicate, OnOk};
ghost use Rattle.sums.specs.Table.{rows_of};
ghost use Rattle.sums.specs.Refused.{number_in};
ghost use Rattle.closure.specs.Call.{closure_refusal, answered, closure_call, Gives};

use crate::reach::Reach;
use crate::{order, reach};
use sums::readings::Rows;
use sums::refusals::Refusal;

// 1: a number is out of range; 2: a slice is not of its length.
#[tactic(auto, unfolding(crate::specs::Call::closure_refusal, sums::specs::Refusals::lowest_from))]
fn check(dim: u32, count: u32, vector: usize, centroids: usize, cells: usize) -> Result<(), Refusal>
    ensures refused { number_in result ≡ closure_refusal dim count vector centroids cells }
    ensures fits { OnOk result (((dim ≤ 64) × (count ≤ 64)) × ((vector ≡ dim) × ((centroids ≡ count * dim) × (cells ≡ count)))) }
{
    if !((1..=64).contains(&dim) && (0..=64).contains(&count)) {
        return Err(Refusal::Range);
    }
    let width = dim as usize;
    let k = count as usize;
    if vector == width && centroids == k * width && cells == k {
        Ok(())
    } else {
        Err(Refusal::Length)
    }
}

// What is left of a call that is refused by neither 1 nor 2, with at least one centroid.
fn list(
    replicas: usize,
    epsilon: f32,
    vector: &[f32],
    centroids: Rows<'_>,
    distances: &mut [f32],
    at: &mut [u16],
    cells: &mut [u16],
) -> Result<u16, Refusal>
    requires cells_nonzero { (0 < length cells.old) × (length cells.old ≤ 64) }
    requires centroids_len { (length vector.now ≡ centroids.dim) × ((length cells.old ≡ centroids.count)
        × ((length distances.old ≡ length cells.old) × (length at.old ≡ length cells.old))) }
    requires cells_value { cells.old ≡ replicate (length cells.old) 65535 }
    ensures { Gives (answered epsilon replicas vector.now (rows_of centroids.entry)) (length cells.old) result cells.new }
{
    order::fill_distances(vector, centroids, distances);
    if order::unordered(distances) {
        return Err(Refusal::Unordered);
    }
    order::order(distances, at);
    let within = Reach::new(epsilon, distances[usize::from(at[0])]);
    let most = replicas.min(at.len());
    let n = reach::select(within, distances, &at[..most], cells);
    Ok(n as u16)
}

// The centroids that a row is offered (01, 'Closure'), or the refusal and blank cells.
pub fn assign(
    dim: u32,
    count: u32,
    max_replicas: u16,
    epsilon: f32,
    vector: &[f32],
    centroids: &[f32],
    cells: &mut [u16],
) -> Result<u16, Refusal>
    ensures { let n = length cells.old in
        Gives (closure_call epsilon max_replicas dim count vector.now centroids.now n) n result cells.new }
{
    cells.fill(65535);
    check(dim, count, vector.len(), centroids.len(), cells.len())?;
    if count == 0 {
        return Ok(0);
    }
    let k = count as usize;
    let mut distances = [0.0f32; 64];
    let mut at = [0u16; 64];
    list(
        usize::from(max_replicas),
        epsilon,
        vector,
        Rows::new(centroids, dim as usize, k),
        &mut distances[..k],
        &mut at[..k],
        cells,
    )
}
