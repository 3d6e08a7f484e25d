// What document 01 puts under the lattice: the word entry, the text, the matrix and the charge.
#![tactic(auto)]

pub mod answer;
pub mod candidates;
pub mod charge;
pub mod entry;
pub mod matrix;
pub mod text;
