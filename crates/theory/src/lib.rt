// The winning region, both tables and the proof of demands 2 and 3: definitions in specs/, theorems in proofs/. There is no code.

#![tactic(auto)]
