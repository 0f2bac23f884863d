// The controller's table, filled in any order: every entry that is written is the right one. Functions that take one sort of states alone take plain
// numbers and sets.
#![tactic(auto)]

ghost use Rattle.std.specs.Prelude.{◌≡◌, ◌≤◌, ◌<◌, length, drop, ◌++◌};
ghost use Rattle.sets.specs.Words.{bits_of, sets_in};
ghost use Rattle.scratch.specs.Stored.{Ready};
ghost use Rattle.game.specs.Acceptance.{acceptance, accepted};
ghost use Rattle.play.specs.Play.{separated_of};
ghost use Rattle.theory.specs.Entries.{controller_entries};
ghost use Rattle.game_sets.specs.Lists.{Lists};
ghost use Rattle.table_sizes.specs.Outlined.{Outlined};
ghost use Rattle.region_runs.specs.Runs.{Runs};
ghost use Rattle.controller_rows.specs.Writes.{length_of};
ghost use Rattle.controller_table.specs.Filled.{ControllerFilled, Every, At, Below, Sized, Given};
ghost use Rattle.controller.specs.Sizes.{ByInput, ByComponent};
ghost use Rattle.bits.specs.Member.{pack};
ghost use Rattle.compact.specs.Rank.{leads};
ghost use Rattle.compact.specs.Compact.{compact_length, compact_entries};

use controller_opening::{starts, unsettled};
use controller_rows::{Home, Size};
use game::{Game, InSet, OutSet, OutState};
use table_sizes::Outline;

// The rows whose home is d; c are the inputs in nontrivial components, of which `firsts` begin a run of equal rows. Here and below the rows of the output
// graph, `outs`, are read where they stand, the counts of sets in the outline, `given`, and the sets in the list l: a game goes by value, and of it only
// counts are read.
fn settle(
    g: Game,
    given: Outline,
    l: &[u64; game_sets::WORDS],
    outs: &[u64; sets::ROW_WORDS],
    s: &[u64],
    room: &mut [u16],
    z: Size,
    c: InSet,
    firsts: InSet,
    d: OutState,
)
    requires { Given g z s.now (bits_of c.0) × (d.0 < z.outputs) × (length_of z ≤ length room.old)
        × Outlined g given × (outs.now ≡ g.output.moves) × Lists g l.now
        × Runs (sets_in s.now) z.inputs (bits_of c.0) (bits_of firsts.0) }
    ensures { ControllerFilled (separated_of g) z (At (separated_of g) d.0) room.old room.new }
{
    let inputs = controller_homeward::inputs_with_home(s, z.inputs, c, firsts, d, d);
    if sets::is_empty(inputs.0) {
        return;
    }
    let component = scratch::out_component(
        s,
        z.inputs,
        z.outputs,
        d,
        OutSet(sets::row_of(outs, d.0)),
    );
    let w = Home {
        state: d,
        component,
        inputs,
    };
    controller_homeward::approach(g, outs, s, room, z, c, firsts, w);
    controller_tour::tour(g, given, l, outs, room, z, w);
}

// The rows with a home.
fn settle_all(
    g: Game,
    given: Outline,
    l: &[u64; game_sets::WORDS],
    outs: &[u64; sets::ROW_WORDS],
    s: &[u64],
    room: &mut [u16],
    z: Size,
    c: InSet,
    firsts: InSet,
)
    requires { Given g z s.now (bits_of c.0) × (length_of z ≤ length room.old) × Outlined g given × (outs.now ≡ g.output.moves) × Lists g l.now
        × Runs (sets_in s.now) z.inputs (bits_of c.0) (bits_of firsts.0) }
    ensures { ControllerFilled (separated_of g) z (Below (separated_of g) z.outputs) room.old room.new }
{
    let m = z.outputs;
    for d in 0..m {
        settle(g, given, l, outs, s, room, z, c, firsts, OutState(d));
    }
}

// All rows.
fn rows(
    g: Game,
    given: Outline,
    l: &[u64; game_sets::WORDS],
    outs: &[u64; sets::ROW_WORDS],
    s: &[u64],
    room: &mut [u16],
    z: Size,
    c: InSet,
)
    requires { Given g z s.now (bits_of c.0) × (length_of z ≤ length room.old) × Outlined g given × (outs.now ≡ g.output.moves) × Lists g l.now }
    ensures { ControllerFilled (separated_of g) z Every room.old room.new }
{
    let firsts = region_runs::firsts(s, z.inputs, c);
    unsettled::plains(room, s, z, c, firsts, outs);
    settle_all(g, given, l, outs, s, room, z, c, firsts);
}

// The size of the table of an accepted game, with rows by input.
fn size_of(g: Game, given: Outline) -> Size
    requires { (acceptance g ≡ accepted) × Outlined g given }
    ensures { Sized g result × ByInput result }
{
    let inputs = g.input.states;
    let counters = given.controller;
    Size {
        inputs,
        outputs: g.output.states,
        counters,
        all: table_counters::below(counters),
        base: inputs,
        width: inputs,
        leaders: InSet(sets::below(inputs)),
    }
}

// Writes the controller's table into the front of the buffer, from the scratch s of an accepted game; c are the inputs in nontrivial components.
pub fn fill(
    g: Game,
    given: Outline,
    l: &[u64; game_sets::WORDS],
    outs: &[u64; sets::ROW_WORDS],
    s: &[u64],
    c: InSet,
    room: &mut [u16],
)
    requires { (acceptance g ≡ accepted) × Ready g s.now (bits_of c.0) × (length (controller_entries (separated_of g)) ≤ length room.old)
        × Outlined g given × (outs.now ≡ g.output.moves) × Lists g l.now }
    ensures { room.new ≡ controller_entries (separated_of g) ++ drop (length (controller_entries (separated_of g))) room.old }
{
    let z = size_of(g, given);
    starts::starts(room, s, z, c, game::in_initial(g), game::out_initial(g));
    rows(g, given, l, outs, s, room, z, c);
}

// The size of the table of an accepted game, with rows by component; the leaders are the smallest inputs of the components.
fn compact_size(g: Game, given: Outline, leaders: InSet) -> Size
    requires { (acceptance g ≡ accepted) × (bits_of leaders.0 ≡ pack g.input.states (leads (separated_of g))) × Outlined g given }
    ensures { Sized g result × ByComponent g result }
{
    let inputs = g.input.states;
    let counters = given.controller;
    Size {
        inputs,
        outputs: g.output.states,
        counters,
        all: table_counters::below(counters),
        base: inputs + inputs,
        width: graph_ranks::components(g, leaders),
        leaders,
    }
}

// The same table with its rows by component, written directly. The answer is how many entries it has.
pub fn fill_compact(
    g: Game,
    given: Outline,
    l: &[u64; game_sets::WORDS],
    outs: &[u64; sets::ROW_WORDS],
    s: &[u64],
    c: InSet,
    room: &mut [u16],
) -> usize
    requires { (acceptance g ≡ accepted) × Ready g s.now (bits_of c.0) × (compact_length (separated_of g) ≤ length room.old)
        × Outlined g given × (outs.now ≡ g.output.moves) × Lists g l.now }
    ensures { (room.new ≡ compact_entries (separated_of g) ++ drop (compact_length (separated_of g)) room.old)
        × (result ≡ compact_length (separated_of g)) }
{
    let leaders = scratch_ranks::write_ranks(g, s, room);
    let z = compact_size(g, given, leaders);
    starts::starts(room, s, z, c, game::in_initial(g), game::out_initial(g));
    rows(g, given, l, outs, s, room, z, c);
    z.base + z.outputs * z.counters * z.width
}
