// The parts of the controller's table that need no home.
#![tactic(auto)]

pub mod starts; // the start entries
pub mod unsettled; // the rows of inputs with no home in reach
