// What a kit's table does: the statement in specs/, the theorem in proofs/. There is no code.

#![tactic(auto)]
