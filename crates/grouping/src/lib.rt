// Grouping (the source's clustering.rs), in the order of 01: rows gathered per label, parts balanced, one split, the waiting groups, the
// means, the call. Readings and centroids are `Rows`, of which the readings are as many as the row order, or more where only a stretch of it
// is lent, and in `balance_clusters` cells, of which there are as many rows of `dim` values as they hold; the number of parts is the length
// of the sizes.
#![tactic(auto)]

pub mod balance;
pub mod call;
pub mod config;
pub mod gather;
pub mod means;
pub mod split;
pub mod waiting;
