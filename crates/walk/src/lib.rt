// The walk back along the left links, and the words of a job (document 01, piece 7).
#![tactic(auto)]

pub mod walk_back;
pub mod words;
