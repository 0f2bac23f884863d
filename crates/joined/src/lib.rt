// The solver of the lecture room: the won map on the joined positions, from the last components of the joined graph backward.
#![tactic(auto)]

ghost use Rattle.std.specs.Prelude.{◌≡◌, false, ◌*◌, ◌+◌, ◌≤◌, ◌<◌, length};
ghost use Rattle.finite.specs.But.{ButFor};
ghost use Rattle.sets.specs.Words.{set_count};
ghost use Rattle.joint.specs.Joint.{rank_at};
ghost use Rattle.game.specs.Acceptance.{acceptance, accepted};
ghost use Rattle.play.specs.Play.{separated_of};
ghost use Rattle.scratch_clearing.specs.Clearing.{cleared};
ghost use Rattle.map_marks.specs.Marks.{MapFilled};
ghost use Rattle.joined_reach.specs.Words.{joined_words, Small};
ghost use Rattle.joined_component.specs.Component.{known};
ghost use Rattle.joined.specs.Order.{Backward, SettledWith, Passed, JoinedSolved};
ghost use Rattle.joined.specs.Joined.{JoinedMade};

use game::{Game, InState, OutState, Refusal};
use joined_reach::{AHEAD, KNOWN, WON};
use sets::ROW_WORDS;

// Settles the component of (i, o), n positions being ahead of it: all components that it leads to are settled.
fn settle_component(
    g: Game,
    ins: &[u64; ROW_WORDS],
    outs: &[u64; ROW_WORDS],
    s: &mut [u64],
    i: InState,
    o: OutState,
    n: u64,
)
    requires { Small g × (joined_words ≤ length s.old) × Backward g n s.old × (i.0 < g.input.states) × (o.0 < g.output.states)
        × (rank_at (separated_of g) i.0 o.0 ≡ n) × (known g s.old i.0 o.0 ≡ false) × (ins.now ≡ g.input.moves)
        × (outs.now ≡ g.output.moves) }
    ensures { SettledWith g n i.0 o.0 s.old s.new }
{
    joined_reach::close(g, ins, outs, s, i, o);
    joined_component::draw_component(g, s, n);
    joined_settle::settle(g, ins, outs, s, i, o);
    joined_component::join(g, s, KNOWN);
}

// Settles the component of (i, o) where that has not been done.
fn settle_position(
    g: Game,
    ins: &[u64; ROW_WORDS],
    outs: &[u64; ROW_WORDS],
    s: &mut [u64],
    i: InState,
    o: OutState,
    n: u64,
)
    requires { Small g × (joined_words ≤ length s.old) × Backward g n s.old × (i.0 < g.input.states) × (o.0 < g.output.states)
        × (rank_at (separated_of g) i.0 o.0 ≡ n) × (ins.now ≡ g.input.moves) × (outs.now ≡ g.output.moves) }
    ensures { SettledWith g n i.0 o.0 s.old s.new }
{
    let row = i.0;
    if !bits::member(s[KNOWN + row], o.0) {
        settle_component(g, ins, outs, s, i, o, n);
    }
}

// Settles all components with n positions ahead.
fn settle_rank(g: Game, ins: &[u64; ROW_WORDS], outs: &[u64; ROW_WORDS], s: &mut [u64], n: u64)
    requires { Small g × (joined_words ≤ length s.old) × Backward g n s.old × (ins.now ≡ g.input.moves) × (outs.now ≡ g.output.moves) }
    ensures { Passed g n (g.input.states * g.output.states) s.old s.new }
{
    let m = g.output.states;
    let positions = g.input.states * m;
    for c in 0..positions {
        if s[AHEAD + c] == n {
            let i = c / m;
            let o = c % m;
            settle_position(g, ins, outs, s, InState(i), OutState(o), n);
        }
    }
}

// Marks the won positions. The last components have the fewest positions ahead, so they are settled first.
fn solve<'a>(g: Game, ins: &'a [u64; ROW_WORDS], outs: &'a [u64; ROW_WORDS], s: &mut [u64])
    requires { Small g × (joined_words ≤ length s.old) × (ins.now ≡ g.input.moves) × (outs.now ≡ g.output.moves) }
    ensures { ButFor 0 2048 s.old s.new × JoinedSolved g s.new }
{
    joined_reach::count_ahead(g, ins, outs, s);
    scratch_clearing::clear(s, 160);
    let positions = g.input.states * g.output.states;
    for n in 1..=positions {
        settle_rank(g, ins, outs, s, n as u64);
    }
}

// Writes the marks to the map.
fn write_map(g: Game, s: &[u64], map: &mut [u64])
    requires { Small g × (joined_words ≤ length s.now) × JoinedSolved g s.now × (g.input.states ≤ set_count map.old) }
    ensures { MapFilled g map.old map.new }
{
    for i in 0..g.input.states {
        sets::put(map, i, sets::of_word(s[WON + i]));
    }
}

// Writes the map of a small accepted game and clears scratch.
fn make_map(g: Game, scratch: &mut [u64], map: &mut [u64])
    requires { Small g × (joined_words ≤ length scratch.old) × (g.input.states ≤ set_count map.old) }
    ensures { (scratch.new ≡ cleared joined_words scratch.old) × MapFilled g map.old map.new }
{
    solve(g, &g.input.moves, &g.output.moves, scratch);
    write_map(g, scratch, map);
    scratch_clearing::clear(scratch, joined_reach::WORDS);
}

// The map of an accepted game, where the counts are small and the buffers long enough.
fn map_accepted(g: Game, scratch: &mut [u64], map: &mut [u64]) -> Result<(), Refusal>
    requires { acceptance g ≡ accepted }
    ensures { JoinedMade g scratch.old scratch.new map.old map.new result }
{
    if g.input.states > 32 {
        return Err(Refusal::TooManyStates);
    }
    if g.output.states > 32 {
        return Err(Refusal::TooManyStates);
    }
    if scratch.len() < joined_reach::WORDS {
        return Err(Refusal::ShortScratch);
    }
    if map.len() < sets::words(g.input.states) {
        return Err(Refusal::ShortScratch);
    }
    make_map(g, scratch, map);
    Ok(())
}

// Marks the won positions, one set of outputs for each input, in a game of at most 32 states a graph. (SPEC 14.3)
pub fn joined_map(g: Game, scratch: &mut [u64], map: &mut [u64]) -> Result<(), Refusal>
    ensures { JoinedMade g scratch.old scratch.new map.old map.new result }
{
    acceptance::accept(g)?;
    map_accepted(g, scratch, map)
}
