// No code: document 01's chains and paths, and that the lattice finds the least of them. Definitions in specs/, laws in proofs/.
#![tactic(auto)]
