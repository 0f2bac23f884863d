// The text of a game, read piece by piece: what stands at a place, or the place of the fault.
#![tactic(auto)]

pub mod set_lists; // lists of sets, and requirements
pub mod whole; // graphs, requirements, the game
