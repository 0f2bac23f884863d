// The text of a game: its definition, its format, and the fixed words.
#![tactic(auto)]

pub mod words; // the fixed words
