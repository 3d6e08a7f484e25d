// The lattice (document 01, pieces 5 and 6) over flat rows: relaxation, rows, forward pass.
#![tactic(auto)]

pub mod forward;
pub mod relaxation;
pub mod rows;
pub mod sentence;
