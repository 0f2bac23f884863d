// Rows of the controller's table, written into the caller's buffer. Functions that take one sort of states alone take plain numbers and sets.
#![tactic(auto)]

use game::{InSet, OutSet, OutState};
use table_counters::CounterSet;

pub mod leaders; // columns of the rows
pub mod rows; // rows of the table, for all counters at once
pub mod sorts; // the table engine's calls, with outputs and columns

// The size of a table, with the set of its counters, and its rows: where they begin, and how many columns they have. Each of the leaders has a column
// of its own, in order. Where rows are by input every input leads, where they are by component its smallest input.
#[derive(Clone, Copy)]
pub struct Size {
    pub inputs: usize,
    pub outputs: usize,
    pub counters: usize,
    pub all: CounterSet,
    pub base: usize,
    pub width: usize,
    pub leaders: InSet,
}

// A home: its number, the states of its component, and the inputs whose home is there.
#[derive(Clone, Copy)]
pub struct Home {
    pub state: OutState,
    pub component: OutSet,
    pub inputs: InSet,
}
