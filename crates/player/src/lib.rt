// A controller's table run step by step.
#![tactic(auto)]

ghost use Rattle.std.specs.Prelude.{◌≡◌, true};
ghost use Rattle.game.specs.Acceptance.{acceptance, accepted};
ghost use Rattle.player.specs.Player.{
  sizes_of,
  Lent,
  fitting,
  begun,
  stepped,
  beginning,
  stepping,
  begin_tests,
  step_tests,
  Plays,
  moved_of,
  Advanced,
};

use game::{Game, InState, OutSet, Refusal};
use player_place::Position;

// A position, and a refusal's code or 0.
#[repr(C)]
#[derive(Clone, Copy)]
pub struct Moved {
    pub at: Position,
    pub code: u8,
}

// How many input states and output states a game has, and how many counters its controller's table.
#[derive(Clone, Copy)]
pub struct Sizes {
    pub inputs: usize,
    pub outputs: usize,
    pub counters: usize,
}

// The first position of an accepted game, for a caller that has accepted it.
pub fn begin_accepted(g: Game, table: &[u16], first: InState) -> Result<Position, Refusal>
    requires { acceptance g ≡ accepted }
    ensures { result ≡ begun g table.now first }
{
    if table.len() != table_sizes::controller_length(g) {
        return Err(Refusal::OtherTable);
    }
    if !player_place::begins_with(g, first) {
        return Err(Refusal::NotAllowed);
    }
    let counters = table_sizes::controller_counters(g);
    player_place::arrive(
        counters,
        game::out_initial(g),
        first,
        view::start(table, first),
    )
}

// The sizes of an accepted game.
pub fn sizes_of(g: Game) -> Sizes
    requires { acceptance g ≡ accepted }
    ensures { result ≡ sizes_of g }
{
    Sizes {
        inputs: g.input.states,
        outputs: g.output.states,
        counters: table_sizes::controller_counters(g),
    }
}

// The next position of an accepted game, by a table of its controller's length. The sizes and the rows are lent, so that who steps often works them out once;
// the game is read by the contract alone.
pub fn step_lent<'a>(
    g: Game,
    n: Sizes,
    ins: &'a [u64; sets::ROW_WORDS],
    outs: &'a [u64; sets::ROW_WORDS],
    table: &[u16],
    at: Position,
    next: InState,
) -> Result<Position, Refusal>
    requires { (acceptance g ≡ accepted) × Lent g n ins.now outs.now × (fitting g table.now ≡ true) }
    ensures { result ≡ stepped g table.now at next }
{
    if !player_place::has_position(g, n.inputs, n.outputs, n.counters, at) {
        return Err(Refusal::OtherTable);
    }
    if !player_place::moves_to(g, n.inputs, ins, at.input, next) {
        return Err(Refusal::NotAllowed);
    }
    let entry = view::read(table, n.inputs, n.counters, player_place::row_of(at, next));
    let allowed = OutSet(sets::row_of(outs, at.output.0));
    player_place::arrive(n.counters, allowed, next, entry)
}

// The next position of an accepted game.
fn step_accepted(g: Game, table: &[u16], at: Position, next: InState) -> Result<Position, Refusal>
    requires { acceptance g ≡ accepted }
    ensures { result ≡ stepped g table.now at next }
{
    if table.len() != table_sizes::controller_length(g) {
        return Err(Refusal::OtherTable);
    }
    let ins = g.input.moves;
    let outs = g.output.moves;
    step_lent(g, sizes_of(g), &ins, &outs, table, at, next)
}

// The first position: `first` with the output and the counter that the table's start gives. (SPEC 10.1, 10.2)
pub fn begin(g: Game, table: &[u16], first: InState) -> Result<Position, Refusal>
    ensures { Plays (begin_tests g table.now first) (beginning g table.now first) result }
{
    acceptance::accept(g)?;
    begin_accepted(g, table, first)
}

// The position after the next input, with the output and the counter that the table's row gives. (SPEC 10.1, 10.2)
pub fn step(g: Game, table: &[u16], at: Position, next: InState) -> Result<Position, Refusal>
    ensures { Plays (step_tests g table.now at next) (stepping g table.now at next) result }
{
    acceptance::accept(g)?;
    step_accepted(g, table, at, next)
}

// The next position with code 0; a refusal gives the old one back with its code. (SPEC 10.1, 10.2)
pub fn step_or_stay(g: Game, table: &[u16], at: Position, next: InState) -> Moved
    ensures { result ≡ moved_of at (stepping g table.now at next) }
{
    match step(g, table, at, next) {
        Ok(p) => Moved { at: p, code: 0 },
        Err(r) => Moved {
            at,
            code: u8::from(r),
        },
    }
}

// Moves the position on; a refusal leaves it as it was. (SPEC 10.1, 10.2)
pub fn advance(g: Game, table: &[u16], at: &mut Position, next: InState) -> Result<(), Refusal>
    ensures { Advanced at.old (stepping g table.now at.old next) at.new result }
{
    *at = step(g, table, *at, next)?;
    Ok(())
}
