// What hosts call: the functions on bytes, those over typed slices, those of the result file, and the root by itself. Counts are numbers, and
// each call holds the lengths of its slices against them. C calls each by the export of its name in `exports_c`, or where it has a mode in front
// by one for each mode: the name alone is the new way's, with `_old_way` behind it the old way's.
#![tactic(auto)]

pub mod bytes;
mod codes;
pub mod result_file;
pub mod root;
pub mod slices;
