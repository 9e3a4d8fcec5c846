// The settings of a k-means run, and what its steps know of them.
ghost use Rattle.std.specs.Prelude.{◌≡◌};
ghost use Rattle.kmeans.specs.KMeans.{usual, for_grouping as for_grouping_lem};
ghost use Rattle.kmeans.specs.Inside.{Trainable};

use sums::readings::Rows;

#[derive(Clone, Copy)]
pub struct KMeansConfig {
    pub niter: u32,
    pub nredo: u32,
    // centroids are brought to length one after each iteration (02 (iv))
    pub spherical: bool,
    pub max_points_per_centroid: u32,
    pub decode_block_size: u32,
}

impl KMeansConfig {
    pub const ITERATIONS: u32 = 25;

    pub const GROUPING_ITERATIONS: u32 = 100;

    pub const RESTARTS: u32 = 1;

    pub const MAX_POINTS_PER_CENTROID: u32 = 256;

    pub const DECODE_BLOCK_SIZE: u32 = 32768;

    // The source's defaults.
    pub fn new() -> Self
        ensures { result ≡ usual }
    {
        KMeansConfig {
            niter: KMeansConfig::ITERATIONS,
            nredo: KMeansConfig::RESTARTS,
            spherical: false,
            max_points_per_centroid: KMeansConfig::MAX_POINTS_PER_CENTROID,
            decode_block_size: KMeansConfig::DECODE_BLOCK_SIZE,
        }
    }

    // What grouping splits with: more iterations, `spherical` as its caller asked, the rest as usual.
    pub fn for_grouping(spherical: bool) -> Self
        ensures { result ≡ for_grouping_lem spherical }
    {
        let mut config = KMeansConfig::new();
        config.niter = KMeansConfig::GROUPING_ITERATIONS;
        config.spherical = spherical;
        config
    }
}

// What every step of a run knows: the values of a row, the clusters, the iterations to be made, the rows of a block, and
// whether centroids are brought to length one.
#[derive(Clone, Copy)]
pub struct Plan {
    pub dim: usize,
    pub k: usize,
    pub iterations: usize,
    pub block: usize,
    pub spherical: bool,
}

// What iterations work on: the plan, and the rows that train with the norm of each.
#[derive(Clone, Copy)]
pub struct Training<'a> {
    pub plan: Plan,
    pub rows: Rows<'a>,
    pub norms: &'a [f32],
    ghost trainable: { Trainable plan rows norms.now },
}
