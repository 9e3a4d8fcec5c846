// One split of a group (the source's split_cluster).
ghost use Rattle.std.specs.Prelude.{List, ℕ, ◌≤◌, ◌<◌, length};
ghost use Rattle.sums.specs.Table.{rows_of};
ghost use Rattle.sums.specs.Cells.{Below};
ghost use Rattle.grouping.specs.Balance.{share};
ghost use Rattle.grouping.specs.PartsInside.{Laid, Parted};
ghost use Rattle.grouping.specs.Groups.{rule_of, balance_if as balance_if_lem};
ghost use Rattle.grouping.specs.Inside.{Room, Split};

use crate::config::GroupingConfig;
use crate::{balance, gather};
use kmeans::config::KMeansConfig;
use kmeans::{restart, training};
use sums::cursor::Draws;
use sums::readings::Rows;
use sums::refusals::Refusal;
use sums::rooms;

// Balancing where the weight is above zero, which a NaN is not.
#[tactic(auto, unfolding(crate::specs::Groups::balance_if))]
fn balance_if(rows: Rows<'_>, centroids: Rows<'_>, weight: f32, part: &mut [u16], sizes: &mut [u16])
    requires wide { 0 < rows.dim }
    requires parted { Parted rows centroids part.old sizes.old }
    requires sizes_nonzero { (0 < length sizes.old) × (length sizes.old ≤ length part.old) }
    ensures { let table = rows_of rows.entry in let centres = rows_of centroids.entry in
        (ps : List (List ℕ)) → Laid ps part.old sizes.old
        → Laid (balance_if_lem table centres (share (length part.old) (length sizes.old)) weight ps)
        part.new sizes.new }
{
    if 0.0f32 < weight {
        balance::balance_clusters(rows.values, rows.dim, centroids.values, weight, part, sizes);
    }
}

// How many of a group's rows its k-means left unplaced, and whether they refuse the group.
#[derive(Clone, Copy)]
pub struct Divided {
    pub unplaced: u32,
    pub done: Result<(), Refusal>,
}

// K-means over the group's rows in listed order; then, unless rows that it left unplaced refuse the group, the rows gathered per label, and
// balancing. `part` is the group's stretch of the row order: afterwards it holds the parts, the last first, and `sizes` how many rows each
// part has.
pub fn split_cluster(
    rows: Rows<'_>,
    config: GroupingConfig,
    draws: &mut Draws<'_>,
    part: &mut [u16],
    sizes: &mut [u16],
    gathered: &mut [f32],
    training: &mut [f32],
) -> Divided
    requires room { Room rows (length sizes.old) (length gathered.old) (length training.old) }
    requires sizes_in_bounds { (length sizes.old ≤ length part.old) × ((length part.old ≤ rows.count) × Below rows.count part.old) }
    ensures { let rule = rule_of draws.old.list.now rows.entry.dim (rows_of rows.entry) (length sizes.old)
        config.weight config.spherical in
        Split config.mode rule part.old draws.old draws.new result part.new sizes.new }
{
    let n = part.len();
    let k = sizes.len();
    let cells = n * rows.dim;
    let width = k * rows.dim;
    let mut centroids = rooms::room::<f32, 4096>(0.0);
    let mut labels = rooms::room::<u16, 4096>(0);
    let mut copied = rooms::room::<u16, 4096>(0);
    training::gather_rows(rows, part, &mut gathered[..cells]);
    let kept = restart::run_kmeans_flat(
        KMeansConfig::for_grouping(config.spherical),
        k,
        draws,
        Rows::new(&gathered[..cells], rows.dim, n),
        &mut labels[..n],
        &mut centroids[..width],
        &mut training[..cells],
    );
    let unplaced = kept.unplaced;
    let done = config.mode.check(unplaced);
    if done.is_err() {
        return Divided { unplaced, done };
    }
    copied[..n].copy_from_slice(part);
    gather::gather(part, &copied[..n], &labels[..n], sizes);
    let centres = Rows {
        values: &centroids[..width],
        dim: rows.dim,
        count: k,
    };
    balance_if(rows, centres, config.weight, part, sizes);
    Divided { unplaced, done }
}
