// The result file: a grouping written as bytes, and read back.
#![tactic(auto)]

mod marks;
pub mod reader;
pub mod writer;
