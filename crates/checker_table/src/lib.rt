// What the checker's searches show of a controller's table: that it wins, or what refutes it. The theorems are in proofs/. There is no code.

#![tactic(auto)]
