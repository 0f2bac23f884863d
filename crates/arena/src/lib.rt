// The play, told of walks alone: what a reader must believe is in specs/. There is no code.

#![tactic(auto)]
