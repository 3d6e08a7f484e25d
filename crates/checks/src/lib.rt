// The tests of a job (document 01, "Answer numbers"): nothing is written here.
#![tactic(auto)]

pub mod checks;
pub mod job;
