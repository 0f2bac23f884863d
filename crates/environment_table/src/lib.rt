// The environment's table while it is filled: definitions in specs/, laws in proofs/. There is no code.

#![tactic(auto)]
