// The objective of a labelling (the source's compute_objective).
ghost use Rattle.std.specs.Prelude.{◌≡◌, ◌≤◌, ◌<◌, length};
ghost use Rattle.sums.specs.Table.{rows_of};
ghost use Rattle.sums.specs.Sums.{zero32};
ghost use Rattle.sums.specs.Cells.{Below};
ghost use Rattle.kmeans.specs.Steps.{objective_from};

use sums::math;
use sums::readings::Rows;

// Rows are added in ascending order, each with its own sum.
pub fn compute_objective(rows: Rows<'_>, centroids: Rows<'_>, labels: &[u16]) -> f64
    requires { (length labels.now ≡ rows.count) × ((centroids.dim ≡ rows.dim) × Below centroids.count labels.now) }
    ensures { result ≡ objective_from zero32 (rows_of centroids.entry) labels.now (rows_of rows.entry) }
{
    let mut total = 0.0f64;
    for (i, label) in labels.iter().enumerate() {
        total += math::spread(rows.row(i), centroids.row(usize::from(*label)));
    }
    total
}
