// The lowest layer: sums in stated order, draws, and the small loops over slices that every layer above leans on. How many values, cells or
// draws there are is the length of their slice.
#![tactic(auto)]

pub mod bits;
pub mod cells;
pub mod cursor;
pub mod draws;
pub mod math;
pub mod ordering;
pub mod readings;
pub mod refusals;
pub mod rooms;
