// The ranks of the inputs' components, written from the closure that stands in scratch. Of the game, which goes by value, only counts are read.
#![tactic(auto)]

ghost use Rattle.std.specs.Prelude.{◌≡◌, ◌+◌, ◌≤◌, ◌<◌, length};
ghost use Rattle.bits.specs.Member.{pack};
ghost use Rattle.sets.specs.Words.{capacity, bits_of};
ghost use Rattle.graphs.specs.Component.{number};
ghost use Rattle.play.specs.Play.{graph_of, separated_of};
ghost use Rattle.compact.specs.Rank.{leads};
ghost use Rattle.graph_ranks.specs.Ranks.{RanksWritten};
ghost use Rattle.scratch.specs.Stored.{Laid};
ghost use Rattle.scratch_ranks.specs.Passed.{Passed};

use game::{Game, InSet, InState};

// The smallest input of the component of i. No input below i reaches it where it is not met, so it is the smallest itself. A leader that does not reach i
// reaches nothing that does, so all that it reaches need not be looked at.
fn first_of(g: Game, s: &[u64], leaders: InSet, met: InSet, i: InState) -> InState
    requires { (g.input.states ≤ capacity) × Laid g s.now × (i.0 < g.input.states) × Passed g i.0 (bits_of leaders.0) (bits_of met.0) }
    ensures { result.0 ≡ number (graph_of g.input) i.0 }
{
    if !sets::member(met.0, i.0) {
        return i;
    }
    let row = scratch::in_reach(s, i);
    let mut rest = sets::intersection(row.0, leaders.0);
    while !sets::is_empty(rest) {
        let j = sets::lowest(rest);
        let there = scratch::in_reach(s, InState(j));
        if sets::member(there.0, i.0) {
            return InState(j);
        }
        rest = sets::difference(rest, there.0);
    }
    i
}

// Writes the rank of each input's component behind the starts. The answer is the smallest inputs of the components.
pub fn write_ranks(g: Game, s: &[u64], room: &mut [u16]) -> InSet
    requires { (g.input.states ≤ capacity) × Laid g s.now × (g.input.states + g.input.states ≤ length room.old) }
    ensures { RanksWritten g room.old room.new × (bits_of result.0 ≡ pack g.input.states (leads (separated_of g))) }
{
    let n = g.input.states;
    let mut leaders = InSet(sets::empty());
    let mut met = InSet(sets::empty());
    let mut rank: u16 = 0;
    for i in 0..n {
        let first = first_of(g, s, leaders, met, InState(i));
        let j = first.0;
        let row = scratch::in_reach(s, first);
        leaders = InSet(sets::insert(leaders.0, j));
        met = InSet(sets::union(met.0, row.0));
        if j == i {
            room[n + i] = rank;
            rank += 1;
        } else {
            room[n + i] = room[n + j];
        }
    }
    leaders
}
