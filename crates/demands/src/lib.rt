// Demands 2 and 3 of accepted games: statements in specs/, theorems in proofs/. There is no code.

#![tactic(auto)]
