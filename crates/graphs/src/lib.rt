// Graphs and walks: definitions in specs/, laws in proofs/. The sweeps that compute a closure are in the crate graph_closure.

#![tactic(auto)]
