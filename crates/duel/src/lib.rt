// Both sides cannot win: the theorem is in proofs/Duel.antt. There is no code.

#![tactic(auto)]
