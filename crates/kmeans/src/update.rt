// New centroids out of counts and sums, with refills for empty clusters (the source's update_centroids).
ghost use Rattle.std.specs.Prelude.{◌≡◌, cond, ◌&&◌, [], ◌∷◌, ◌+◌, ◌*◌, ◌≤◌, ◌<◌, eqb, ltb, length, drop};
ghost use Rattle.sums.specs.Rows.{rows_from};
ghost use Rattle.sums.specs.Table.{rows_of};
ghost use Rattle.sums.specs.Draws.{Drawn};
ghost use Rattle.kmeans.specs.Steps.{times_inverse, update_from, draws_after};
ghost use Rattle.kmeans.specs.Inside.{Sources};

use labels::positions::{TrainingPosition, training_place};
use sums::cursor::Draws;
use sums::readings::Rows;

// Each sum times the inverse of the count, and not divided by it.
fn scale(dst: &mut [f32], from: &[f32], count: u16)
    requires { length dst.old ≡ length from.now }
    ensures { dst.new ≡ times_inverse count from.now }
{
    let inverse = 1.0f32 / (count as f32);
    for (i, x) in from.iter().enumerate() {
        dst[i] = x * inverse;
    }
}

// One cluster's centroid: its sums times the inverse of its count; with no rows, the next pool row, or a drawn one. How many pool rows are
// used then.
fn update_cluster(
    dst: &mut [f32],
    from: &[f32],
    count: u16,
    training: Rows<'_>,
    pool: &[u16],
    used: usize,
    draws: &mut Draws<'_>,
) -> usize
    requires dst_len { (length dst.old ≡ training.dim) × (length from.now ≡ training.dim) }
    requires sources { Sources training pool.now }
    ensures fact { let left = drop used pool.now in
        Drawn draws.old draws.new (dst.new ∷ [])
        (λ n. update_from draws.old.list.now (rows_of training.entry) n left (count ∷ []) (from.now ∷ [])) (λ n. draws_after n left (count ∷ [])) }
    ensures used_value { result ≡ cond (eqb count 0 && ltb used (length pool.now)) (used + 1) used }
{
    if 0 < count {
        scale(dst, from, count);
        return used;
    }
    if used < pool.len() {
        let place = training_place(TrainingPosition(pool[used]));
        dst.copy_from_slice(training.row(place));
        return used + 1;
    }
    let number = draws.draw() as usize;
    let position = number % training.count;
    let place = training_place(TrainingPosition(position as u16));
    dst.copy_from_slice(training.row(place));
    used
}

// The centroid of every cluster, in ascending order.
pub fn update_centroids(
    centroids: &mut [f32],
    from: Rows<'_>,
    counts: &[u16],
    training: Rows<'_>,
    pool: &[u16],
    draws: &mut Draws<'_>,
)
    requires centroids_len { (length centroids.old ≡ length counts.now * training.dim)
        × ((from.dim ≡ training.dim) × (from.count ≡ length counts.now)) }
    requires sources { Sources training pool.now }
    ensures { Drawn draws.old draws.new (rows_from training.entry.dim (length counts.now) centroids.new)
        (λ n. update_from draws.old.list.now (rows_of training.entry) n pool.now counts.now (rows_of from.entry))
        (λ n. draws_after n pool.now counts.now) }
{
    let mut used = 0usize;
    for (j, count) in counts.iter().enumerate() {
        let at = j * training.dim;
        used = update_cluster(
            &mut centroids[at..at + training.dim],
            from.row(j),
            *count,
            training,
            pool,
            used,
            draws,
        );
    }
}
