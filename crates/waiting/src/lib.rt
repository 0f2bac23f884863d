// The right to wait, of accepted games: the statement in specs/, the theorem in proofs/. There is no code.

#![tactic(auto)]
