// The settings of a grouping (the source's HierarchicalClustering).
use labels::mode::Mode;

#[derive(Clone, Copy)]
pub struct GroupingConfig {
    // a group of at most so many rows is finished
    pub limit: u32,
    // how many parts a split makes
    pub branching: u32,
    // parts are balanced where this is above zero
    pub weight: f32,
    // at most so many splits
    pub budget: u32,
    // whether k-means brings centroids to length one, so that shape groups and not scale (02 (iv))
    pub spherical: bool,
    // whether unplaced rows refuse a split (02 (iii))
    pub mode: Mode,
}
