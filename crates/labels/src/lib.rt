// Scores, labels, the pool of far rows, and the labelling call. Readings and centroids are handed on as `Rows`, and each slice of labels,
// norms or distances has a cell for each of the rows.
#![tactic(auto)]

pub mod call;
pub mod lanes;
pub mod mode;
pub mod nearest;
pub mod pool;
pub mod positions;
