// A panel's table played against, step by step: the panel's move is told before the output is picked.
#![tactic(auto)]

ghost use Rattle.std.specs.Prelude.{true, ◌≡◌};
ghost use Rattle.game.specs.Acceptance.{acceptance, accepted};
ghost use Rattle.play.specs.Play.{separated_of};
ghost use Rattle.theory.specs.Entries.{environment_counters};
ghost use Rattle.player_place.specs.Place.{has_position};
ghost use Rattle.player.specs.Player.{Plays, moved_of};
ghost use Rattle.panel_player.specs.Panel.{
  start_move,
  panel_row_entry,
  row_move,
  first_move,
  first_place,
  next_move,
  next_place,
  panel_first,
  panel_begin,
  panel_next,
  panel_step,
  panel_first_tests,
  panel_begin_tests,
  panel_next_tests,
  panel_step_tests,
  Picks,
};

use game::{Game, OutState, Refusal};
use panel_place::PanelMove;
use player::Moved;
use player_place::Position;

// The move that the table's start names.
fn start_move(g: Game, table: &[u16]) -> Result<PanelMove, Refusal>
    requires { acceptance g ≡ accepted }
    ensures { result ≡ start_move g table.now }
{
    let entry = view::entry(table, 0);
    let allowed = player_place::begins_with(g, panel_place::named(entry));
    panel_place::pick(table_sizes::environment_counters(g), entry, allowed)
}

// The entry of the row at a position that the game has.
fn row_entry(g: Game, table: &[u16], counters: usize, at: Position) -> u16
    requires { (acceptance g ≡ accepted) × (counters ≡ environment_counters (separated_of g)) × (has_position g counters at ≡ true) }
    ensures { result ≡ panel_row_entry g table.now at }
{
    let outputs = g.output.states;
    let i = at.input.0;
    let o = at.output.0;
    view::entry(table, 1 + ((i * counters + at.counter) * outputs + o))
}

// The move that the row at a position names.
fn row_move(g: Game, table: &[u16], counters: usize, at: Position) -> Result<PanelMove, Refusal>
    requires { (acceptance g ≡ accepted) × (counters ≡ environment_counters (separated_of g)) × (has_position g counters at ≡ true) }
    ensures { result ≡ row_move g table.now at }
{
    let entry = row_entry(g, table, counters, at);
    let ins = g.input.moves;
    let allowed = player_place::moves_to(
        g,
        g.input.states,
        &ins,
        at.input,
        panel_place::named(entry),
    );
    panel_place::pick(counters, entry, allowed)
}

// The panel's first move in an accepted game.
fn first_accepted(g: Game, table: &[u16]) -> Result<PanelMove, Refusal>
    requires { acceptance g ≡ accepted }
    ensures { result ≡ first_move g table.now }
{
    if table.len() != table_sizes::environment_length(g) {
        return Err(Refusal::OtherTable);
    }
    start_move(g, table)
}

// The first position of an accepted game.
fn begin_accepted(g: Game, table: &[u16], first: OutState) -> Result<Position, Refusal>
    requires { acceptance g ≡ accepted }
    ensures { result ≡ first_place g table.now first }
{
    if table.len() != table_sizes::environment_length(g) {
        return Err(Refusal::OtherTable);
    }
    if !panel_place::opens_with(g, first) {
        return Err(Refusal::NotAllowed);
    }
    panel_place::join(first, start_move(g, table))
}

// The panel's next move in an accepted game.
fn next_accepted(g: Game, table: &[u16], at: Position) -> Result<PanelMove, Refusal>
    requires { acceptance g ≡ accepted }
    ensures { result ≡ next_move g table.now at }
{
    if table.len() != table_sizes::environment_length(g) {
        return Err(Refusal::OtherTable);
    }
    let counters = table_sizes::environment_counters(g);
    if !player_place::has_position(g, g.input.states, g.output.states, counters, at) {
        return Err(Refusal::OtherTable);
    }
    row_move(g, table, counters, at)
}

// The next position of an accepted game.
fn step_accepted(g: Game, table: &[u16], at: Position, next: OutState) -> Result<Position, Refusal>
    requires { acceptance g ≡ accepted }
    ensures { result ≡ next_place g table.now at next }
{
    if table.len() != table_sizes::environment_length(g) {
        return Err(Refusal::OtherTable);
    }
    let counters = table_sizes::environment_counters(g);
    if !player_place::has_position(g, g.input.states, g.output.states, counters, at) {
        return Err(Refusal::OtherTable);
    }
    if !panel_place::replies_with(g, at.output, next) {
        return Err(Refusal::NotAllowed);
    }
    panel_place::join(next, row_move(g, table, counters, at))
}

// The panel's first input and counter, by the table's start. (SPEC 10.3)
pub fn first(g: Game, table: &[u16]) -> Result<PanelMove, Refusal>
    ensures { Picks (panel_first_tests g table.now) (panel_first g table.now) result }
{
    acceptance::accept(g)?;
    first_accepted(g, table)
}

// The first position: the input and the counter of the table's start with the output `first`. (SPEC 10.3)
pub fn begin(g: Game, table: &[u16], first: OutState) -> Result<Position, Refusal>
    ensures { Plays (panel_begin_tests g table.now first) (panel_begin g table.now first) result }
{
    acceptance::accept(g)?;
    begin_accepted(g, table, first)
}

// The panel's next input and counter at a position, by the table's row. (SPEC 10.3)
pub fn next(g: Game, table: &[u16], at: Position) -> Result<PanelMove, Refusal>
    ensures { Picks (panel_next_tests g table.now at) (panel_next g table.now at) result }
{
    acceptance::accept(g)?;
    next_accepted(g, table, at)
}

// The position after that move, with the output `next`. (SPEC 10.3)
pub fn step(g: Game, table: &[u16], at: Position, next: OutState) -> Result<Position, Refusal>
    ensures { Plays (panel_step_tests g table.now at next) (panel_step g table.now at next) result }
{
    acceptance::accept(g)?;
    step_accepted(g, table, at, next)
}

// The next position with code 0; a refusal gives the old one back with its code. (SPEC 10.3)
pub fn step_or_stay(g: Game, table: &[u16], at: Position, next: OutState) -> Moved
    ensures { result ≡ moved_of at (panel_step g table.now at next) }
{
    match step(g, table, at, next) {
        Ok(p) => Moved { at: p, code: 0 },
        Err(r) => Moved {
            at,
            code: u8::from(r),
        },
    }
}
