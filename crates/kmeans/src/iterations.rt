// Lloyd's iterations (the source's run_lloyd_iterations).
ghost use Rattle.std.specs.Prelude.{◌≡◌, ◌*◌, length};
ghost use Rattle.sums.specs.Table.{rows_of};
ghost use Rattle.kmeans.specs.Inside.{Fitted, centroids_of};

use crate::config::Training;
use crate::{alike, lloyd};
use sums::cursor::Draws;

// All the iterations asked for; rows that are all one row take the short way.
pub fn run_lloyd_iterations(train: &Training<'_>, draws: &mut Draws<'_>, centroids: &mut [f32])
    requires { length centroids.old ≡ train.now.plan.k * train.now.plan.dim }
    ensures { Fitted draws.old draws.new train.now.plan (rows_of train.now.rows)
        (centroids_of train.now.plan centroids.old) (centroids_of train.now.plan centroids.new) }
{
    if alike::rows_alike(train.rows) {
        alike::run_alike(train, draws, centroids);
    } else {
        lloyd::run_any(train, draws, centroids);
    }
}
