// Centroids on the unit sphere (the source's normalize_centroids).
ghost use Rattle.std.specs.Prelude.{◌≡◌, map, ◌*◌, length};
ghost use Rattle.sums.specs.Rows.{rows_from};
ghost use Rattle.sphere.specs.Unit.{times_all, unit_row, sphered};

use crate::root;
use sums::math;

// Each value times the factor.
#[tactic(auto, unfolding(crate::specs::Unit::times_all))]
fn times(row: &mut [f32], factor: f32)
    ensures { row.new ≡ times_all factor row.old }
{
    for x in row.iter_mut() {
        *x *= factor;
    }
}

// One centroid: times the inverse of the root of its norm, where the norm is above zero.
#[tactic(auto, unfolding(crate::specs::Unit::unit_row, crate::specs::Unit::unit_if))]
fn normalize(row: &mut [f32])
    ensures { row.new ≡ unit_row row.old }
{
    let norm = math::norm(row);
    if 0.0f32 < norm {
        let inverse = 1.0f32 / root::root(norm);
        times(row, inverse);
    }
}

// All k centroids.
fn normalize_centroids(centroids: &mut [f32], k: usize, dim: usize)
    requires { length centroids.old ≡ k * dim }
    ensures { rows_from dim k centroids.new ≡ map unit_row (rows_from dim k centroids.old) }
{
    for c in 0..k {
        let at = c * dim;
        normalize(&mut centroids[at..at + dim]);
    }
}

// The source's switch: all k centroids, or none.
#[tactic(auto, unfolding(crate::specs::Unit::sphered))]
pub fn apply_spherical(spherical: bool, centroids: &mut [f32], k: usize, dim: usize)
    requires { length centroids.old ≡ k * dim }
    ensures { rows_from dim k centroids.new ≡ sphered spherical (rows_from dim k centroids.old) }
{
    if spherical {
        normalize_centroids(centroids, k, dim);
    }
}
