// Plays that never end. Statements and laws.

#![tactic(auto)]
