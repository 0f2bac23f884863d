// The cases of document 01 that are proved: games in specs/, their answers in proofs/. There is no code.

#![tactic(auto)]
