// The whole job: the tests, then the lattice, then the words.
#![tactic(auto)]

pub mod segment;
