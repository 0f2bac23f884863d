// The start, and the rows that need no walk: those of won positions, of trivial components, and of outputs without a move.
#![tactic(auto)]

ghost use Rattle.std.specs.Prelude.{◌≡◌, true, false, ℕ, ◌<◌, ◌≤◌, length};
ghost use Rattle.finite.specs.Bounded.{least};
ghost use Rattle.bits.specs.Member.{has, pack, within, both};
ghost use Rattle.sets.specs.Words.{capacity, bits_of, sets_in, set_count};
ghost use Rattle.scratch.specs.Stored.{Reached};
ghost use Rattle.play.specs.Play.{separated_of};
ghost use Rattle.theory.specs.Region.{region};
ghost use Rattle.theory.specs.Choice.{environment_start};
ghost use Rattle.theory.specs.Entries.{entry};
ghost use Rattle.environment_table.specs.Table.{Known, Roomy, EnvironmentFilled, Pushes};
ghost use Rattle.environment_table.specs.Reading.{Shaped, refused_at, TrivialInputs, unwalked, pushed_at, Pushed, plain};

use environment_rows::{rows, sorts};
use game::{Game, InSet, InState, OutSet, OutState};

// What the outputs of the set reach, from scratch for n inputs and m outputs.
fn reached(s: &[u64], n: usize, m: usize, set: OutSet) -> OutSet
    requires { Shaped (set_count s.now) n m × (within (bits_of set.0) m ≡ true) }
    ensures { Reached (sets_in s.now) n m (bits_of set.0) (bits_of result.0) }
{
    let mut x = sets::empty();
    for p in set.0 {
        let more = scratch::out_reach(s, n, OutState(p));
        x = sets::union(x, more.0);
    }
    OutSet(x)
}

// The inputs with which no output of the set makes a won position.
fn refused(s: &[u64], n: usize, m: usize, inner: InSet, set: OutSet) -> InSet
    requires { Shaped (set_count s.now) n m × (within (bits_of set.0) m ≡ true) }
    ensures { bits_of result.0 ≡ pack n (refused_at (sets_in s.now) n m (bits_of inner.0) (bits_of set.0)) }
{
    let reach = reached(s, n, m, set);
    let mut x = sets::empty();
    for j in 0..n {
        x = sets::insert_if(
            x,
            j,
            !scratch::some_won(s, n, m, inner, InState(j), set, reach),
        );
    }
    InSet(x)
}

// The lowest input of both sets; n where there is none. Those of the second are below n.
fn unanswered(n: usize, from: InSet, refused: InSet) -> usize
    requires { (n ≤ capacity) × (within (bits_of refused.0) n ≡ true) }
    ensures { result ≡ least n (both (bits_of from.0) (bits_of refused.0)) }
{
    let x = sets::intersection(from.0, refused.0);
    if sets::is_empty(x) {
        return n;
    }
    sets::lowest(x)
}

// The start: the lowest initial input with no won reply.
pub fn start_entry(g: Game, s: &[u64], inner: InSet) -> u16
    requires { Known g s.now (bits_of inner.0) }
    ensures { result ≡ entry (environment_start (separated_of g)) }
{
    let n = g.input.states;
    let x = refused(s, n, g.output.states, inner, game::out_initial(g));
    let j = unanswered(n, game::in_initial(g), x);
    if j < n {
        return table_entries::pack(j, 0);
    }
    table_entries::NONE
}

// The rows of i where the position is won: none.
fn none_row(g: Game, s: &[u64], inner: InSet, counters: usize, i: InState, room: &mut [u16])
    requires { Known g s.now (bits_of inner.0) × Roomy g counters (length room.old) × (i.0 < g.input.states) }
    ensures { EnvironmentFilled g (λ a h b. (a ≡ i.0) × (region (separated_of g) a b ≡ true)) room.old room.new }
{
    let won = scratch::won_outputs(s, g.input.states, g.output.states, inner, i);
    let z = rows::layout_of(g.input.states, counters, g.output.states);
    sorts::write(
        room,
        z,
        i,
        won,
        table_counters::below(counters),
        table_entries::NONE,
        0,
    );
}

// The rows of all won positions.
fn none_rows(g: Game, s: &[u64], inner: InSet, counters: usize, room: &mut [u16])
    requires { Known g s.now (bits_of inner.0) × Roomy g counters (length room.old) }
    ensures { EnvironmentFilled g (λ a h b. region (separated_of g) a b ≡ true) room.old room.new }
{
    let n = g.input.states;
    for i in 0..n {
        none_row(g, s, inner, counters, InState(i), room);
    }
}

// The rows of the inputs of `which` and output o: the lowest move to an input that no move of o answers. Those inputs are `refused`. Here and below the rows
// of the graphs, `ins` and `outs`, are read where they stand: a game goes by value, and to read a row of it would copy all of them for each output.
fn push_rows(
    g: Game,
    ins: &[u64; sets::ROW_WORDS],
    counters: usize,
    o: OutState,
    which: InSet,
    refused: InSet,
    room: &mut [u16],
)
    requires { Roomy g counters (length room.old) × Pushes g (bits_of which.0) o.0 (bits_of refused.0) × (ins.now ≡ g.input.moves) }
    ensures { EnvironmentFilled g (λ a h b. (has (bits_of which.0) a ≡ true) × (b ≡ o.0)) room.old room.new }
{
    let z = rows::layout_of(g.input.states, counters, g.output.states);
    sorts::enter(ins, room, z, which, refused, o);
}

// The inputs whose rows with an output need no walk, `moves` being its moves: those of `trivials`, and all n where there is none.
fn pushed(n: usize, trivials: InSet, moves: OutSet) -> InSet
    requires { n ≤ capacity }
    ensures { (i : ℕ) → has (bits_of result.0) i ≡ pushed_at (bits_of moves.0) n (bits_of trivials.0) i }
{
    if sets::is_empty(moves.0) {
        return InSet(sets::below(n));
    }
    trivials
}

// The rows of the inputs of x, which need no walk, that are not won with output o. What o refuses is worked out once for all of them, and only where
// there are any.
fn push_column(
    g: Game,
    ins: &[u64; sets::ROW_WORDS],
    outs: &[u64; sets::ROW_WORDS],
    s: &[u64],
    inner: InSet,
    counters: usize,
    x: InSet,
    o: OutState,
    room: &mut [u16],
)
    requires { Known g s.now (bits_of inner.0) × Roomy g counters (length room.old) × Pushed g (bits_of x.0) o.0 × (o.0 < g.output.states)
        × (ins.now ≡ g.input.moves) × (outs.now ≡ g.output.moves) }
    ensures { EnvironmentFilled g (λ a h b. (unwalked g a b ≡ true) × (b ≡ o.0) × (region (separated_of g) a b ≡ false)) room.old
        room.new }
{
    let n = g.input.states;
    let which = environment_rows::lost(s, n, inner, x, o);
    if sets::is_empty(which.0) {
        return;
    }
    let moves = OutSet(sets::row_of(outs, o.0));
    let y = refused(s, n, g.output.states, inner, moves);
    push_rows(g, ins, counters, o, which, y, room);
}

// The same for every output; `trivials` are the inputs in trivial components.
fn push_columns<'a>(
    g: Game,
    ins: &'a [u64; sets::ROW_WORDS],
    outs: &'a [u64; sets::ROW_WORDS],
    s: &[u64],
    inner: InSet,
    counters: usize,
    trivials: InSet,
    room: &mut [u16],
)
    requires { Known g s.now (bits_of inner.0) × Roomy g counters (length room.old)
        × TrivialInputs g.input.states (bits_of inner.0) (bits_of trivials.0)
        × (ins.now ≡ g.input.moves) × (outs.now ≡ g.output.moves) }
    ensures { EnvironmentFilled g (λ a h b. (unwalked g a b ≡ true) × (region (separated_of g) a b ≡ false)) room.old room.new }
{
    let m = g.output.states;
    for o in 0..m {
        let x = pushed(g.input.states, trivials, OutSet(sets::row_of(outs, o)));
        push_column(g, ins, outs, s, inner, counters, x, OutState(o), room);
    }
}

// All rows that need no walk: none where the position is won, and the pushes.
pub fn plain_rows<'a>(
    g: Game,
    ins: &'a [u64; sets::ROW_WORDS],
    outs: &'a [u64; sets::ROW_WORDS],
    s: &[u64],
    inner: InSet,
    counters: usize,
    room: &mut [u16],
)
    requires { Known g s.now (bits_of inner.0) × Roomy g counters (length room.old) × (ins.now ≡ g.input.moves) × (outs.now ≡ g.output.moves) }
    ensures { EnvironmentFilled g (λ a h b. plain g a b ≡ true) room.old room.new }
{
    none_rows(g, s, inner, counters, room);
    let trivials = InSet(sets::difference(sets::below(g.input.states), inner.0));
    push_columns(g, ins, outs, s, inner, counters, trivials, room);
}
