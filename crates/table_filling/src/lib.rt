// Buffers filled in any order with the entries of a list: definitions in specs/, laws in proofs/. There is no code.

#![tactic(auto)]
