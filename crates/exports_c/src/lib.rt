// What C callers link: the functions of `exports`, each under its own name and with its own clauses, as a static library. Where a function has a
// mode in front, its name is the call in the new way, and its name with `_old_way` behind it the call in the old way, each with the clauses at
// that mode. A slice goes as its pointer and its length.
#![tactic(auto)]

pub mod bytes;
pub mod result_file;
pub mod root;
pub mod slices;
