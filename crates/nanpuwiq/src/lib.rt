// The public entries for callers in C and in Rust. Each is thin over the entry of the crate below it, and answers every input.
// A code is document 01's number of a refusal, 0 for none.
#![tactic(auto)]

ghost use Rattle.std.specs.Prelude.{◌≡◌};
ghost use Rattle.game.specs.Numbers.{first_of, game_tests};
ghost use Rattle.player.specs.Player.{moved_of, beginning, stepping};
ghost use Rattle.recorder.specs.Recorded.{compared};
ghost use Rattle.panel_player.specs.Panel.{panel_first, panel_begin, panel_next, panel_step};
ghost use Rattle.nanpuwiq_results.specs.Results.{compare_result, panel_moved, zero_position};
ghost use Rattle.kit_drives.specs.Acceptance.{kit_tests};
ghost use Rattle.compact_view.specs.Rows.{Looked};
ghost use Rattle.nanpuwiq.specs.Calls.{AdvanceCalled, MapCalled, JoinedCalled, SolveCalled, CompactCalled, KitCalled, ReadCalled, WriteCalled};
ghost use Rattle.nanpuwiq.specs.Calls.{ExplainCalled, ExplainAllCalled, CheckCalled, BarredCalled, JudgeCalled};
ghost use Rattle.nanpuwiq.specs.Calls.{OverCalled, BackCalled, CountCalled};

use game::{Game, InState, OutState};
use kit_drives::Kit;
use nanpuwiq_results::{
    CheckResult, CompareResult, CountResult, ExplainResult, JudgeResult, MoveResult, PanelMoved,
    ReadResult, SolveResult, WriteResult,
};
use player::Moved;
use player_place::Position;
use recorder::{InRecording, OutRecording};
use view::RowIndex;

// Whether the game is accepted.
#[unsafe(no_mangle)]
pub extern "C" fn nanpuwiq_accept(g: Game) -> u8
    ensures { result ≡ first_of (game_tests g) }
{
    nanpuwiq_results::refusal_code(acceptance::accept(g))
}

// Marks the won positions: one set of outputs for each input.
#[unsafe(no_mangle)]
pub extern "C" fn nanpuwiq_won_map(g: Game, scratch: &mut [u64], map: &mut [u64]) -> u8
    ensures { MapCalled g scratch.old scratch.new map.old map.new result }
{
    nanpuwiq_results::refusal_code(map::won_map(g, scratch, map))
}

// Marks the won positions of a game of at most 32 states a graph, on the joined positions.
#[unsafe(no_mangle)]
pub extern "C" fn nanpuwiq_joined_map(g: Game, scratch: &mut [u64], map: &mut [u64]) -> u8
    ensures { JoinedCalled g scratch.old scratch.new map.old map.new result }
{
    nanpuwiq_results::refusal_code(joined::joined_map(g, scratch, map))
}

// Marks the won positions of a game with bars: some outputs are barred with certain inputs.
#[unsafe(no_mangle)]
pub extern "C" fn nanpuwiq_barred_map(
    g: Game,
    bars: &[u64],
    scratch: &mut [u64],
    map: &mut [u64],
) -> u8
    ensures { BarredCalled g bars.now scratch.old scratch.new map.old map.new result }
{
    nanpuwiq_results::refusal_code(interlock::barred_map(g, bars, scratch, map))
}

// Which side wins a game with bars.
#[unsafe(no_mangle)]
pub extern "C" fn nanpuwiq_barred_verdict(g: Game, bars: &[u64], scratch: &mut [u64]) -> JudgeResult
    ensures { JudgeCalled g bars.now scratch.old scratch.new result }
{
    nanpuwiq_results::judge_result(interlock::barred_verdict(g, bars, scratch))
}

// What made the position of an input and an output won or lost.
#[unsafe(no_mangle)]
pub extern "C" fn nanpuwiq_explain(
    g: Game,
    scratch: &mut [u64],
    i: InState,
    o: OutState,
) -> ExplainResult
    ensures { ExplainCalled g scratch.old scratch.new i o result }
{
    nanpuwiq_results::explain_result(explain::explain(g, scratch, i, o))
}

// The same of every position, an entry each, by input and then by output. The region is worked out once.
#[unsafe(no_mangle)]
pub extern "C" fn nanpuwiq_explain_all(g: Game, scratch: &mut [u64], grounds: &mut [u16]) -> u8
    ensures { ExplainAllCalled g scratch.old scratch.new grounds.old grounds.new result }
{
    nanpuwiq_results::refusal_code(explain_all::explain_all(g, scratch, grounds))
}

// Names the side that wins and writes its table into the front of its buffer.
#[unsafe(no_mangle)]
pub extern "C" fn nanpuwiq_solve(
    g: Game,
    scratch: &mut [u64],
    controller: &mut [u16],
    panel: &mut [u16],
) -> SolveResult
    ensures { SolveCalled g scratch.old scratch.new controller.old controller.new panel.old
        panel.new result }
{
    nanpuwiq_results::solve_result(solver::solve_into(g, scratch, controller, panel))
}

// The same, the controller's table in the compact layout, with its rows by component.
#[unsafe(no_mangle)]
pub extern "C" fn nanpuwiq_solve_compact(
    g: Game,
    scratch: &mut [u64],
    controller: &mut [u16],
    panel: &mut [u16],
) -> SolveResult
    ensures { CompactCalled g scratch.old scratch.new controller.old controller.new panel.old
        panel.new result }
{
    nanpuwiq_results::solve_result(solver::solve_compact_into(g, scratch, controller, panel))
}

// Whether a controller's table wins; else what shows that it does not, with the walk at the front of the room.
#[unsafe(no_mangle)]
pub extern "C" fn nanpuwiq_check(g: Game, table: &[u16], room: &mut [u16]) -> CheckResult
    ensures { CheckCalled g table.now room.old room.new result }
{
    nanpuwiq_results::check_result(checker::check(g, table, room))
}

// How many components the input graph has: the count that the compact layout asks for.
#[unsafe(no_mangle)]
pub extern "C" fn nanpuwiq_components(g: Game) -> CountResult
    ensures { CountCalled g result }
{
    nanpuwiq_results::count_result(compact_moves::count_components(g))
}

// Writes a controller's table of the full layout in the compact one, with its rows by component, into the front of the room.
#[unsafe(no_mangle)]
pub extern "C" fn nanpuwiq_to_compact(g: Game, table: &[u16], room: &mut [u16]) -> MoveResult
    ensures { OverCalled g table.now room.old room.new result }
{
    nanpuwiq_results::move_result(compact_moves::to_compact(g, table, room))
}

// Writes a controller's table of the compact layout in the full one into the front of the room.
#[unsafe(no_mangle)]
pub extern "C" fn nanpuwiq_to_full(g: Game, table: &[u16], room: &mut [u16]) -> MoveResult
    ensures { BackCalled g table.now room.old room.new result }
{
    nanpuwiq_results::move_result(compact_moves::to_full(g, table, room))
}

// The entry of a row of a table of the compact layout: that of an output, a counter and the new input.
#[unsafe(no_mangle)]
pub extern "C" fn nanpuwiq_compact_row(
    rows: &[u16],
    inputs: usize,
    counters: usize,
    components: usize,
    output: OutState,
    counter: usize,
    input: InState,
) -> u16
    ensures { Looked rows.now inputs counters components output.0 counter input.0 result }
{
    let at = RowIndex {
        output,
        counter,
        input,
    };
    compact_view::lookup(rows, inputs, counters, components, at)
}

// Whether the kit is accepted.
#[unsafe(no_mangle)]
pub extern "C" fn nanpuwiq_accept_kit(k: Kit) -> u8
    ensures { result ≡ first_of (kit_tests k) }
{
    nanpuwiq_results::refusal_code(kit_checks::accept_kit(k))
}

// Names the side that wins the kit's game. Where the system does, the front of room becomes the kit's table.
#[unsafe(no_mangle)]
pub extern "C" fn nanpuwiq_solve_kit(
    k: Kit,
    scratch: &mut [u64],
    controller: &mut [u16],
    panel: &mut [u16],
    room: &mut [u16],
) -> SolveResult
    ensures { KitCalled k scratch.old scratch.new controller.old controller.new panel.old
        panel.new room.old room.new result }
{
    nanpuwiq_results::solve_result(kit::solve_kit(k, scratch, controller, panel, room))
}

// The game that a text describes.
#[unsafe(no_mangle)]
pub extern "C" fn nanpuwiq_read(text: &[u8]) -> ReadResult
    ensures { ReadCalled text.now result }
{
    nanpuwiq_results::read_result(text::read(text))
}

// Writes the text of a game into the front of the buffer.
#[unsafe(no_mangle)]
pub extern "C" fn nanpuwiq_write(g: Game, buffer: &mut [u8]) -> WriteResult
    ensures { WriteCalled g buffer.old buffer.new result }
{
    nanpuwiq_results::write_result(text::write(g, buffer))
}

// The first position: `first` with the output and the counter that the table's start gives. On a refusal the position is all zero.
#[unsafe(no_mangle)]
pub extern "C" fn nanpuwiq_begin(g: Game, table: &[u16], first: InState) -> Moved
    ensures { result ≡ moved_of zero_position (beginning g table.now first) }
{
    nanpuwiq_results::first_move(player::begin(g, table, first))
}

// The position after the next input, with the output and the counter that the table's row gives. On a refusal the position is the old one.
#[unsafe(no_mangle)]
pub extern "C" fn nanpuwiq_step(g: Game, table: &[u16], at: Position, next: InState) -> Moved
    ensures { result ≡ moved_of at (stepping g table.now at next) }
{
    player::step_or_stay(g, table, at, next)
}

// Moves the position on and answers 0; a refusal leaves it as it was and answers its code.
#[unsafe(no_mangle)]
pub extern "C" fn nanpuwiq_advance(g: Game, table: &[u16], at: &mut Position, next: InState) -> u8
    ensures { AdvanceCalled at.old (stepping g table.now at.old next) at.new result }
{
    nanpuwiq_results::refusal_code(player::advance(g, table, at, next))
}

// The panel's first input and counter, by the start of its table.
#[unsafe(no_mangle)]
pub extern "C" fn nanpuwiq_panel_first(g: Game, table: &[u16]) -> PanelMoved
    ensures { result ≡ panel_moved (panel_first g table.now) }
{
    nanpuwiq_results::panel_move(panel_player::first(g, table))
}

// The first position against a panel's table: the input and the counter of its start with the output `first`. On a refusal the position is all zero.
#[unsafe(no_mangle)]
pub extern "C" fn nanpuwiq_panel_begin(g: Game, table: &[u16], first: OutState) -> Moved
    ensures { result ≡ moved_of zero_position (panel_begin g table.now first) }
{
    nanpuwiq_results::first_move(panel_player::begin(g, table, first))
}

// The panel's next input and counter at a position, by the row of its table.
#[unsafe(no_mangle)]
pub extern "C" fn nanpuwiq_panel_next(g: Game, table: &[u16], at: Position) -> PanelMoved
    ensures { result ≡ panel_moved (panel_next g table.now at) }
{
    nanpuwiq_results::panel_move(panel_player::next(g, table, at))
}

// The position after that move, with the output `next`. On a refusal the position is the old one.
#[unsafe(no_mangle)]
pub extern "C" fn nanpuwiq_panel_step(g: Game, table: &[u16], at: Position, next: OutState) -> Moved
    ensures { result ≡ moved_of at (panel_step g table.now at next) }
{
    panel_player::step_or_stay(g, table, at, next)
}

// Whether the recorded outputs are those that the table gives for the recorded inputs; else the first step that shows it.
#[unsafe(no_mangle)]
pub extern "C" fn nanpuwiq_compare<'a, 'b, 'c>(
    g: Game,
    table: &'a [u16],
    inputs: InRecording<'b>,
    outputs: OutRecording<'c>,
) -> CompareResult
    ensures { result ≡ compare_result (compared g table.now inputs.entry.states.now outputs.entry.states.now) }
{
    nanpuwiq_results::compare_result(recorder::compare(g, table, inputs, outputs))
}
