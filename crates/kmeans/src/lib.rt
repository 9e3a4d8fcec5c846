// K-means (the source's kmeans.rs): exact, total, over lent slices. In the order of 01's steps: training rows, one update, Lloyd's
// iterations (a short way for rows that are all one row, and the way of any rows), the objective, the restarts, the call. There are as many
// rows as labels and as many training rows as norms; dim and k stand in the plan.
#![tactic(auto)]

pub mod alike;
pub mod call;
pub mod config;
pub mod iterations;
pub mod lloyd;
pub mod objective;
pub mod restart;
pub mod training;
pub mod update;
