// Tours of a nontrivial component past the assumptions, for the outputs with which it has no way out.
#![tactic(auto)]

ghost use Rattle.std.specs.Prelude.{◌≡◌, true, length};
ghost use Rattle.bits.specs.Member.{has};
ghost use Rattle.sets.specs.Words.{bits_of};
ghost use Rattle.game_sets.specs.Lists.{Lists};
ghost use Rattle.table_sizes.specs.Outlined.{Outlined};
ghost use Rattle.environment_table.specs.Table.{Roomy, EnvironmentFilled};
ghost use Rattle.environment_table.specs.Touring.{Left, Aims};

use environment_rows::{rows, sorts};
use game::{Game, InSet, OutSet};
use table_counters::CounterSet;
use table_sizes::Outline;

// The rows towards all goals, one requirement after the other. Of the game, which goes by value, only counts are read: its input graph's rows are lent, as
// `ins`, and its requirements are read in the outline.
fn aims(
    g: Game,
    given: Outline,
    l: &[u64; game_sets::WORDS],
    ins: &[u64; sets::ROW_WORDS],
    counters: usize,
    c: InSet,
    q: CounterSet,
    over: OutSet,
    room: &mut [u16],
)
    requires { Roomy g counters (length room.old) × Aims g (bits_of c.0) q.0 (bits_of over.0) counters
        × Outlined g given × (ins.now ≡ g.input.moves) × Lists g l.now }
    ensures { EnvironmentFilled g (λ k h b. (has (bits_of c.0) k ≡ true) × (has (bits_of over.0) b ≡ true)) room.old
        room.new }
{
    let z = rows::layout_of(g.input.states, counters, g.output.states);
    let mut n: usize = 0;
    for r in 0..g.k {
        let t = table_sizes::assumptions_of(g, given, l, r, n);
        sorts::aim_some(ins, room, z, c, over, q, t);
        n += t.count;
    }
}

// The rows of the component c and the outputs of `over`, those with which it has no way out. The goals are found once for all of them.
pub fn tours(
    g: Game,
    given: Outline,
    l: &[u64; game_sets::WORDS],
    ins: &[u64; sets::ROW_WORDS],
    counters: usize,
    c: InSet,
    over: OutSet,
    room: &mut [u16],
)
    requires { Roomy g counters (length room.old) × Left g (bits_of c.0) (bits_of over.0) × Outlined g given
        × (ins.now ≡ g.input.moves) × Lists g l.now }
    ensures { EnvironmentFilled g (λ k h b. (has (bits_of c.0) k ≡ true) × (has (bits_of over.0) b ≡ true)) room.old
        room.new }
{
    let q = table_sizes::assumptions_met(g, given, l, c);
    if table_counters::is_empty(q) {
        let z = rows::layout_of(g.input.states, counters, g.output.states);
        sorts::stay(ins, room, z, c, over);
        return;
    }
    aims(g, given, l, ins, counters, c, q, over, room);
}
