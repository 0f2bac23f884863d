// The player's position: whether a game has it, the tests of an input, and the position that a table's entry gives.
#![tactic(auto)]

ghost use Rattle.std.specs.Prelude.{◌≡◌, ◌&&◌, ◌≤◌, ◌<◌, ltb};
ghost use Rattle.bits.specs.Member.{has};
ghost use Rattle.sets.specs.Words.{capacity, bits_of};
ghost use Rattle.graphs.specs.Graph.{edge, begins};
ghost use Rattle.game.specs.Acceptance.{acceptance, accepted};
ghost use Rattle.play.specs.Play.{graph_of};
ghost use Rattle.theory.specs.Entries.{answer};
ghost use Rattle.player_place.specs.Place.{arrives, has_position};

use game::{Game, InState, OutSet, OutState, Refusal};
use sets::Set;
use view::RowIndex;

// Input, output and counter after the controller's answer. (SPEC 10.1)
#[repr(C)]
#[derive(Clone, Copy)]
pub struct Position {
    pub input: InState,
    pub output: OutState,
    pub counter: usize,
}

// Whether s is below n and belongs to x.
pub fn holds(x: Set, n: usize, s: usize) -> bool
    requires { n ≤ capacity }
    ensures { result ≡ (ltb s n && has (bits_of x) s) }
{
    if s >= n {
        return false;
    }
    sets::member(x, s)
}

// Whether input i is initial.
pub fn begins_with(g: Game, i: InState) -> bool
    requires { acceptance g ≡ accepted }
    ensures { result ≡ begins (graph_of g.input) i.0 }
{
    let h = g.input;
    holds(h.initial, h.states, i.0)
}

// Whether input i, a state of the game, moves to j. The count of the inputs and their rows are lent: here and below the game is read by the contract alone.
pub fn moves_to(
    g: Game,
    inputs: usize,
    ins: &[u64; sets::ROW_WORDS],
    i: InState,
    j: InState,
) -> bool
    requires { (inputs ≡ g.input.states) × (ins.now ≡ g.input.moves) × (i.0 < inputs) × (inputs ≤ capacity) }
    ensures { result ≡ edge (graph_of g.input) i.0 j.0 }
{
    holds(sets::row_of(ins, i.0), inputs, j.0)
}

// Whether the game has the position.
pub fn has_position(g: Game, inputs: usize, outputs: usize, counters: usize, at: Position) -> bool
    requires { (inputs ≡ g.input.states) × (outputs ≡ g.output.states) }
    ensures { result ≡ has_position g counters at }
{
    if at.input.0 >= inputs {
        return false;
    }
    if at.output.0 >= outputs {
        return false;
    }
    at.counter < counters
}

// The row that answers the next input.
pub fn row_of(at: Position, next: InState) -> RowIndex
    ensures { result ≡ record { output = at.output; counter = at.counter; input = next } }
{
    let output = at.output;
    RowIndex {
        output,
        counter: at.counter,
        input: next,
    }
}

// The position that an entry gives after an input, the outputs allowed being those of a set.
pub fn arrive(
    counters: usize,
    allowed: OutSet,
    input: InState,
    entry: u16,
) -> Result<Position, Refusal>
    ensures { result ≡ arrives counters (has (bits_of allowed.0)) input (answer entry) }
{
    if entry == table_entries::NONE {
        return Err(Refusal::BadEntry);
    }
    let counter = table_entries::counter(entry);
    let state = table_entries::state(entry);
    if counter >= counters {
        return Err(Refusal::BadEntry);
    }
    if !sets::member(allowed.0, state) {
        return Err(Refusal::BadEntry);
    }
    Ok(Position {
        input,
        output: OutState(state),
        counter,
    })
}
