// The panel's move by its table: what an entry names, the tests of an output, and the position that a move and an output make.
#![tactic(auto)]

ghost use Rattle.std.specs.Prelude.{◌≡◌, ◌≤◌, ◌<◌};
ghost use Rattle.sets.specs.Words.{capacity};
ghost use Rattle.graphs.specs.Graph.{edge, begins};
ghost use Rattle.game.specs.Acceptance.{acceptance, accepted};
ghost use Rattle.play.specs.Play.{graph_of};
ghost use Rattle.theory.specs.Entries.{answer};
ghost use Rattle.panel_place.specs.Picks.{named_input, picks, position_with};

use game::{Game, InState, OutState, Refusal};
use player_place::Position;

// The panel's move: the next input and the next counter.
#[derive(Clone, Copy)]
pub struct PanelMove {
    pub input: InState,
    pub counter: usize,
}

// Whether output o is initial.
pub fn opens_with(g: Game, o: OutState) -> bool
    requires { acceptance g ≡ accepted }
    ensures { result ≡ begins (graph_of g.output) o.0 }
{
    let h = g.output;
    player_place::holds(h.initial, h.states, o.0)
}

// Whether output o, a state of the game, moves to p.
pub fn replies_with(g: Game, o: OutState, p: OutState) -> bool
    requires { (o.0 < g.output.states) × (g.output.states ≤ capacity) }
    ensures { result ≡ edge (graph_of g.output) o.0 p.0 }
{
    let h = g.output;
    let s = o.0;
    player_place::holds(sets::row_of(&h.moves, s), h.states, p.0)
}

// The input that an entry names, if it is not none.
pub fn named(entry: u16) -> InState
    ensures { result ≡ named_input entry }
{
    InState(table_entries::state(entry))
}

// The move that an entry names, given whether its input is allowed.
pub fn pick(counters: usize, entry: u16, allowed: bool) -> Result<PanelMove, Refusal>
    ensures { result ≡ picks counters (λ s. allowed) (answer entry) }
{
    if entry == table_entries::NONE {
        return Err(Refusal::BadEntry);
    }
    let counter = table_entries::counter(entry);
    if counter >= counters {
        return Err(Refusal::BadEntry);
    }
    if !allowed {
        return Err(Refusal::BadEntry);
    }
    Ok(PanelMove {
        input: named(entry),
        counter,
    })
}

// The position that the panel's move makes with an output.
pub fn join(output: OutState, a: Result<PanelMove, Refusal>) -> Result<Position, Refusal>
    ensures { result ≡ position_with output a }
{
    let m = a?;
    Ok(Position {
        input: m.input,
        output,
        counter: m.counter,
    })
}
