// Panel recorder against drive recorder: whether the outputs of a run are those that a controller's table gives for its inputs.
#![tactic(auto)]

ghost use Rattle.std.specs.Prelude.{true, ◌≡◌, ◌≤◌, ◌<◌, length, get_or, drop};
ghost use Rattle.game.specs.Acceptance.{acceptance, accepted};
ghost use Rattle.player.specs.Player.{fitting, Lent};
ghost use Rattle.recorder.specs.Recorded.{ended, answer_at, recorded, nowhere, Compares};

use game::{Game, InState, OutState, Refusal};
use player::Sizes;
use player_place::Position;

// The inputs of a run, recorded by the panel: a state number a byte.
#[repr(C)]
#[derive(Clone, Copy)]
pub struct InRecording<'a> {
    pub states: &'a [u8],
}

// The outputs of a run, recorded by the drive.
#[repr(C)]
#[derive(Clone, Copy)]
pub struct OutRecording<'a> {
    pub states: &'a [u8],
}

// The reply. Steps count from 0, the start. A fault holds its step and the player's number.
#[derive(Clone, Copy)]
pub enum Comparison {
    Agree,
    Differ(usize),
    Ended(usize),
    Fault(usize, Refusal),
}

// Entry n of a recording.
fn state_at(recording: &[u8], n: usize) -> usize
    requires { n < length recording.now }
    ensures { result ≡ get_or recording.now n 0 }
{
    recording[n] as usize
}

// The player's answer to the input of step n: at the start it begins. The game is accepted and the table's length tested, once for all steps; `m`, `ins` and
// `outs` are the game's sizes and rows, worked out once too.
fn answer_at<'a>(
    g: Game,
    m: Sizes,
    ins: &'a [u64; sets::ROW_WORDS],
    outs: &'a [u64; sets::ROW_WORDS],
    table: &[u16],
    n: usize,
    at: Position,
    next: InState,
) -> Result<Position, Refusal>
    requires { (acceptance g ≡ accepted) × Lent g m ins.now outs.now × (fitting g table.now ≡ true) }
    ensures { result ≡ answer_at g table.now n at next }
{
    if n == 0 {
        return player::begin_accepted(g, table, next);
    }
    player::step_lent(g, m, ins, outs, table, at, next)
}

// Where the inputs have ended at step n.
fn at_end(outputs: &[u8], n: usize) -> Result<Comparison, Refusal>
    requires { n ≤ length outputs.now }
    ensures { result ≡ ended (drop n outputs.now) n }
{
    if n < outputs.len() {
        return Ok(Comparison::Ended(n));
    }
    Ok(Comparison::Agree)
}

// Plays the recorded inputs, and looks at each step whether the output is the recorded one.
fn follow<'a>(
    g: Game,
    m: Sizes,
    ins: &'a [u64; sets::ROW_WORDS],
    outs: &'a [u64; sets::ROW_WORDS],
    table: &[u16],
    inputs: &[u8],
    outputs: &[u8],
) -> Result<Comparison, Refusal>
    requires { (acceptance g ≡ accepted) × Lent g m ins.now outs.now × (fitting g table.now ≡ true) }
    ensures { result ≡ recorded g table.now inputs.now outputs.now 0 nowhere }
{
    let mut at = Position {
        input: InState(0),
        output: OutState(0),
        counter: 0,
    };
    for n in 0..inputs.len() {
        match answer_at(g, m, ins, outs, table, n, at, InState(state_at(inputs, n))) {
            Err(r) => {
                return Ok(Comparison::Fault(n, r));
            }
            Ok(p) => {
                if n >= outputs.len() {
                    return Ok(Comparison::Ended(n));
                }
                if p.output.0 != state_at(outputs, n) {
                    return Ok(Comparison::Differ(n));
                }
                at = p;
            }
        }
    }
    at_end(outputs, inputs.len())
}

// Whether the outputs are those that the table gives for the inputs; else the first step that shows it.
fn compare_states(
    g: Game,
    table: &[u16],
    inputs: &[u8],
    outputs: &[u8],
) -> Result<Comparison, Refusal>
    ensures { Compares g table.now inputs.now outputs.now result }
{
    let ins = g.input.moves;
    let outs = g.output.moves;
    acceptance::accept_lent(g, &ins, &outs)?;
    if table.len() != table_sizes::controller_length(g) {
        return Err(Refusal::OtherTable);
    }
    follow(g, player::sizes_of(g), &ins, &outs, table, inputs, outputs)
}

// Whether the recorded outputs are those that the table gives for the recorded inputs; else the first step that shows it. (SPEC 10.4)
pub fn compare<'a, 'b, 'c>(
    g: Game,
    table: &'a [u16],
    inputs: InRecording<'b>,
    outputs: OutRecording<'c>,
) -> Result<Comparison, Refusal>
    ensures { Compares g table.now inputs.entry.states.now outputs.entry.states.now result }
{
    compare_states(g, table, inputs.states, outputs.states)
}
