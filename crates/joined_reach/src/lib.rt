// What a joined position reaches: the positions that both graphs, moving at once, lead to from it. A set of joined positions is one word an input.
#![tactic(auto)]

ghost use Rattle.std.specs.Prelude.{◌≡◌, ◌≢◌, true, ℕ, ◌*◌, ◌≤◌, ◌<◌, length};
ghost use Rattle.bits.specs.Member.{has};
ghost use Rattle.graphs.specs.Graph.{edge};
ghost use Rattle.play.specs.Play.{graph_of};
ghost use Rattle.joined_reach.specs.Words.{joined_words, Small};
ghost use Rattle.joined_reach.specs.Reach.{Next, Grown, Entered, Within, Waiting, Followed, Reached, found_below, Counted};

use game::{Game, InState, OutState};
use sets::ROW_WORDS;

// A set of inputs, and one of outputs, below 64: a word of scratch.
#[derive(Clone, Copy)]
pub struct InWord(pub u64);

#[derive(Clone, Copy)]
pub struct OutWord(pub u64);

// How many words of scratch the map on joined positions takes.
pub const WORDS: usize = 4096;

// Where the sets begin in scratch: what is found, what of it has been followed, what is won, what is known, and a component. Each has 32 words.
pub const FOUND: usize = 0;

pub const FOLLOWED: usize = 32;

pub const WON: usize = 64;

pub const KNOWN: usize = 96;

pub const COMPONENT: usize = 128;
// Where it stands, for each position, how many positions it reaches: 1,024 words.
pub const AHEAD: usize = 1024;

// The inputs that i moves to. Here and below the rows of the graphs, `ins` and `outs`, are read where they stand: a game goes by value, and to read a row of
// it would copy all of them.
pub fn input_moves(g: Game, ins: &[u64; ROW_WORDS], i: InState) -> InWord
    requires { Small g × (i.0 < g.input.states) × (ins.now ≡ g.input.moves) }
    ensures { (j : ℕ) → has result.0 j ≡ edge (graph_of g.input) i.0 j }
{
    let row = sets::row_of(ins, i.0);
    InWord(sets::word(row))
}

// The outputs that o moves to.
pub fn output_moves(g: Game, outs: &[u64; ROW_WORDS], o: OutState) -> OutWord
    requires { Small g × (o.0 < g.output.states) × (outs.now ≡ g.output.moves) }
    ensures { (p : ℕ) → has result.0 p ≡ edge (graph_of g.output) o.0 p }
{
    let row = sets::row_of(outs, o.0);
    OutWord(sets::word(row))
}

// The outputs that some member of x moves to.
fn next_outputs(g: Game, outs: &[u64; ROW_WORDS], x: OutWord) -> OutWord
    requires { Small g × ((p : ℕ) → has x.0 p ≡ true → p < g.output.states) × (outs.now ≡ g.output.moves) }
    ensures { Next g x.0 result.0 }
{
    let mut y: u64 = 0;
    let mut rest = x.0;
    while rest != 0 {
        let moves = output_moves(g, outs, OutState(bits::lowest(rest)));
        y = bits::union(y, moves.0);
        rest = bits::without_lowest(rest);
    }
    OutWord(y)
}

// Adds the outputs y to row j of what is found. Where the row grows, j waits to be followed.
fn grow(s: &mut [u64], j: InState, y: OutWord, waiting: InWord) -> InWord
    requires { (j.0 < 32) × (joined_words ≤ length s.old) }
    ensures { Grown j.0 y.0 waiting.0 result.0 s.old s.new }
{
    let place = j.0;
    let row = s[FOUND + place];
    if bits::is_subset(y.0, row) {
        return waiting;
    }
    s[FOUND + place] = bits::union(row, y.0);
    InWord(bits::insert(waiting.0, place))
}

// Adds the outputs y to the rows of all inputs that r moves to: both graphs move at once.
fn enter(
    g: Game,
    ins: &[u64; ROW_WORDS],
    s: &mut [u64],
    r: InState,
    y: OutWord,
    waiting: InWord,
) -> InWord
    requires { Small g × (r.0 < g.input.states) × (joined_words ≤ length s.old) × (ins.now ≡ g.input.moves) }
    ensures { Entered g r.0 y.0 waiting.0 result.0 s.old s.new }
{
    let moves = input_moves(g, ins, r);
    let mut left = waiting;
    let mut rest = moves.0;
    while rest != 0 {
        left = grow(s, InState(bits::lowest(rest)), y, left);
        rest = bits::without_lowest(rest);
    }
    left
}

// Follows the lowest row that waits: the moves of what was found there since it was followed last.
fn follow(
    g: Game,
    ins: &[u64; ROW_WORDS],
    outs: &[u64; ROW_WORDS],
    s: &mut [u64],
    waiting: InWord,
) -> InWord
    requires { Small g × (joined_words ≤ length s.old) × (waiting.0 ≢ 0) × Waiting g waiting.0 s.old
        × (ins.now ≡ g.input.moves) × (outs.now ≡ g.output.moves) }
    ensures { Followed g waiting.0 result.0 s.old s.new }
{
    let r = bits::lowest(waiting.0);
    let found = s[FOUND + r];
    let new = bits::difference(found, s[FOLLOWED + r]);
    let y = next_outputs(g, outs, OutWord(new));
    s[FOLLOWED + r] = found;
    let rest = bits::without_lowest(waiting.0);
    enter(g, ins, s, InState(r), y, InWord(rest))
}

// Finds the positions that (i, o) reaches.
pub fn close(
    g: Game,
    ins: &[u64; ROW_WORDS],
    outs: &[u64; ROW_WORDS],
    s: &mut [u64],
    i: InState,
    o: OutState,
)
    requires { Small g × (i.0 < g.input.states) × (o.0 < g.output.states) × (joined_words ≤ length s.old) × (ins.now ≡ g.input.moves)
        × (outs.now ≡ g.output.moves) }
    ensures { Reached g i.0 o.0 s.old s.new }
{
    let row = i.0;
    let output = o.0;
    scratch_clearing::clear(s, 64);
    s[FOUND + row] = bits::insert(0, output);
    let mut waiting = InWord(bits::insert(0, row));
    while waiting.0 != 0 {
        waiting = follow(g, ins, outs, s, waiting);
    }
}

// How many positions are found.
fn count_found(g: Game, s: &[u64]) -> usize
    requires { Small g × (joined_words ≤ length s.now) × Within g s.now }
    ensures { result ≡ found_below g s.now (g.input.states * g.output.states) }
{
    let mut n: usize = 0;
    for i in 0..g.input.states {
        n += bits::count(s[FOUND + i]);
    }
    n
}

// Writes down for each position how many positions are ahead of it: those that it reaches, itself counted.
pub fn count_ahead(g: Game, ins: &[u64; ROW_WORDS], outs: &[u64; ROW_WORDS], s: &mut [u64])
    requires { Small g × (joined_words ≤ length s.old) × (ins.now ≡ g.input.moves) × (outs.now ≡ g.output.moves) }
    ensures { Counted g s.old s.new }
{
    let m = g.output.states;
    let positions = g.input.states * m;
    for c in 0..positions {
        close(g, ins, outs, s, InState(c / m), OutState(c % m));
        s[AHEAD + c] = count_found(g, s) as u64;
    }
}
