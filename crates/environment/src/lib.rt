// The environment's table, filled from scratch that holds the winning region. Sorts of states are kept apart in every signature that has both.
#![tactic(auto)]

ghost use Rattle.std.specs.Prelude.{◌≡◌, false, ◌++◌, ◌+◌, ◌<◌, length, drop};
ghost use Rattle.sets.specs.Words.{bits_of};
ghost use Rattle.graphs.specs.Component.{number};
ghost use Rattle.play.specs.Play.{graph_of, separated_of};
ghost use Rattle.theory.specs.Entries.{environment_entries};
ghost use Rattle.game_sets.specs.Lists.{Lists};
ghost use Rattle.table_sizes.specs.Outlined.{Outlined};
ghost use Rattle.environment_table.specs.Table.{Solved, Known, Roomy, EnvironmentFilled};
ghost use Rattle.environment_table.specs.Pressing.{Ahead};
ghost use Rattle.environment_table.specs.Reading.{plain};

use game::{Game, InSet, InState};
use table_sizes::Outline;

// The rows of the component whose number is i, where there is a nontrivial one. `ahead` are the inputs of those whose number is not below i, and the answer
// those of the others: each component is looked for once. Here and below the rows of both graphs, `ins` and `outs`, are read where they stand, the counts of
// sets in the outline, `given`, and the sets in the list l: a game goes by value, and of it only counts and initial states are read.
fn component_rows<'a>(
    g: Game,
    given: Outline,
    l: &[u64; game_sets::WORDS],
    b: &'a [u64; board::WORDS],
    ins: &'a [u64; sets::ROW_WORDS],
    outs: &'a [u64; sets::ROW_WORDS],
    s: &[u64],
    inner: InSet,
    ahead: InSet,
    i: InState,
    room: &mut [u16],
) -> InSet
    requires { Known g s.now (bits_of inner.0) × Roomy g given.environment (length room.old) × (i.0 < g.input.states)
        × Outlined g given × (ins.now ≡ g.input.moves) × (outs.now ≡ g.output.moves) × Lists g l.now × Ahead g i.0 (bits_of ahead.0) }
    ensures { EnvironmentFilled g (λ a h b. (number (graph_of g.input) a ≡ i.0) × (plain g a b ≡ false)) room.old room.new
        × Ahead g (i.0 + 1) (bits_of result.0) }
{
    if !sets::member(ahead.0, i.0) {
        return ahead;
    }
    let c = scratch::in_component(s, g.input.states, i, board::in_row(b, i));
    let counters = given.environment;
    let over = environment_escape::escapes(g, ins, outs, s, inner, counters, c, i, room);
    environment_tour::tours(g, given, l, ins, counters, c, over, room);
    InSet(sets::difference(ahead.0, c.0))
}

// The rows of all nontrivial components.
fn walked_rows<'a>(
    g: Game,
    given: Outline,
    l: &[u64; game_sets::WORDS],
    b: &'a [u64; board::WORDS],
    ins: &'a [u64; sets::ROW_WORDS],
    outs: &'a [u64; sets::ROW_WORDS],
    s: &[u64],
    inner: InSet,
    room: &mut [u16],
)
    requires { Known g s.now (bits_of inner.0) × Roomy g given.environment (length room.old)
        × Outlined g given × (ins.now ≡ g.input.moves) × (outs.now ≡ g.output.moves) × Lists g l.now }
    ensures { EnvironmentFilled g (λ a h b. plain g a b ≡ false) room.old room.new }
{
    let n = g.input.states;
    let mut ahead = inner;
    for i in 0..n {
        ahead = component_rows(g, given, l, b, ins, outs, s, inner, ahead, InState(i), room);
    }
}

// The front of room becomes the environment's table; the rest stays. `inner` are the inputs in nontrivial components.
pub fn fill(
    g: Game,
    given: Outline,
    l: &[u64; game_sets::WORDS],
    b: &[u64; board::WORDS],
    s: &[u64],
    inner: InSet,
    room: &mut [u16],
)
    requires { Solved g s.now (bits_of inner.0) (length room.old) × Outlined g given
        × Lists g l.now }
    ensures { room.new ≡ environment_entries (separated_of g) ++ drop (length (environment_entries (separated_of g))) room.old }
{
    let ins = g.input.moves;
    let outs = g.output.moves;
    room[0] = environment_plain::start_entry(g, s, inner);
    environment_plain::plain_rows(g, &ins, &outs, s, inner, given.environment, room);
    walked_rows(g, given, l, b, &ins, &outs, s, inner, room);
}
