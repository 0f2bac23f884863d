// A game laid out in words, the board, which can be lent: a game goes by value, and there is no reference to a record. It is made once, where a call begins,
// and what is below reads it where it stands. Each reader has its sort: no row of inputs can be taken for one of outputs.
// Every word of it is a copy of one of the game's, and it has all of them but three, the sizes, which go by value (M-103, docs/DECISIONS.md).
#![tactic(auto)]

ghost use Rattle.std.specs.Prelude.{◌≡◌, ◌+◌, ◌*◌, ◌≤◌, ◌<◌, length, get_or};
ghost use Rattle.sets.specs.Words.{capacity, row_words, bits_of, sets_in, set_count};
ghost use Rattle.game.specs.Access.{no_input, no_output};
ghost use Rattle.board.specs.Board.{
  board_words,
  in_rows,
  out_rows,
  requirement_on,
  game_on,
  sizes_of,
  RowsPut,
  SetPut,
  RequirementPut,
};

use game::{Game, InSet, InState, OutSet, OutState, Requirement};
use sets::Set;

// How many words a board has: the rows of both graphs, 64 sets of requirements, two initial sets, and how many sets each requirement has in use.
pub const WORDS: usize = 660;

// The set at which the rows of the outputs begin; those of the inputs come first.
const OUT_ROWS: usize = 128;

// The word past the rows of both graphs.
const ROWS_END: usize = 512;

// The sets at which those of requirement 0 begin: four of inputs, then four of outputs. Each requirement has eight.
const ASSUMPTIONS: usize = 256;

const GUARANTEES: usize = 260;

const SETS: usize = 8;

// The sets that are the initial sets.
const IN_INITIAL: usize = 320;

const OUT_INITIAL: usize = 321;

// The words at which those that tell how many input and output sets of each requirement are in use begin.
const ASSUMED: usize = 644;

const GUARANTEED: usize = 652;

// What goes by value: how many input states, output states and requirements there are.
#[derive(Clone, Copy)]
pub struct Sizes {
    pub inputs: usize,
    pub outputs: usize,
    pub requirements: usize,
}

// The input states that i moves to.
pub fn in_row(b: &[u64; WORDS], i: InState) -> InSet
    requires { i.0 < capacity }
    ensures { bits_of result.0 ≡ get_or (sets_in (in_rows b.now)) i.0 0 }
{
    InSet(sets::row(b, i.0))
}

// The output states that o moves to.
pub fn out_row(b: &[u64; WORDS], o: OutState) -> OutSet
    requires { o.0 < capacity }
    ensures { bits_of result.0 ≡ get_or (sets_in (out_rows b.now)) o.0 0 }
{
    OutSet(sets::row(b, OUT_ROWS + o.0))
}

// Input set j of requirement r.
pub fn assumption(b: &[u64; WORDS], r: usize, j: usize) -> InSet
    requires { (r < 8) × (j < 4) }
    ensures { bits_of result.0 ≡ bits_of (get_or (requirement_on b.now r).assumptions j no_input).0 }
{
    InSet(sets::row(b, ASSUMPTIONS + SETS * r + j))
}

// Output set j of requirement r.
pub fn guarantee(b: &[u64; WORDS], r: usize, j: usize) -> OutSet
    requires { (r < 8) × (j < 4) }
    ensures { bits_of result.0 ≡ bits_of (get_or (requirement_on b.now r).guarantees j no_output).0 }
{
    OutSet(sets::row(b, GUARANTEES + SETS * r + j))
}

// How many input sets of requirement r are in use.
pub fn assumed(b: &[u64; WORDS], r: usize) -> usize
    requires { r < 8 }
    ensures { result ≡ (requirement_on b.now r).assumed }
{
    b[ASSUMED + r] as usize
}

// How many output sets of requirement r are in use.
pub fn guaranteed(b: &[u64; WORDS], r: usize) -> usize
    requires { r < 8 }
    ensures { result ≡ (requirement_on b.now r).guaranteed }
{
    b[GUARANTEED + r] as usize
}

// The rows of the input graph, for what is worked out of any graph.
pub fn in_rows(b: &[u64; WORDS]) -> &[u64]
    ensures { (result.now ≡ in_rows b.now) × (capacity ≤ set_count result.now) }
{
    let words = &b[..];
    &words[..sets::ROW_WORDS]
}

// The rows of the output graph.
pub fn out_rows(b: &[u64; WORDS]) -> &[u64]
    ensures { (result.now ≡ out_rows b.now) × (capacity ≤ set_count result.now) }
{
    let words = &b[..];
    &words[sets::ROW_WORDS..ROWS_END]
}

// Writes the rows of a graph from word `at` on.
fn put_rows(b: &mut [u64; WORDS], at: usize, l: &[u64; sets::ROW_WORDS])
    requires { (at + row_words ≤ board_words) × (length b.old ≡ board_words) }
    ensures { RowsPut at l.now b.old b.new }
{
    for i in 0..sets::ROW_WORDS {
        b[at + i] = l[i];
    }
}

// Writes the words of set number s.
fn put_set(b: &mut [u64; WORDS], s: usize, x: Set)
    requires { (2 * s + 1 < board_words) × (length b.old ≡ board_words) }
    ensures { SetPut s x b.old b.new }
{
    b[2 * s] = x.low;
    b[2 * s + 1] = x.high;
}

// Writes requirement r.
fn put_requirement(b: &mut [u64; WORDS], r: usize, q: Requirement)
    requires { (r < 8) × (length b.old ≡ board_words) }
    ensures { RequirementPut r q b.old b.new }
{
    for j in 0..4 {
        let x = q.assumptions[j];
        let y = q.guarantees[j];
        put_set(b, ASSUMPTIONS + SETS * r + j, x.0);
        put_set(b, GUARANTEES + SETS * r + j, y.0);
    }
    b[ASSUMED + r] = q.assumed as u64;
    b[GUARANTEED + r] = q.guaranteed as u64;
}

// The sizes of a game.
pub fn sizes_of(g: Game) -> Sizes
    ensures { result ≡ sizes_of g }
{
    Sizes {
        inputs: g.input.states,
        outputs: g.output.states,
        requirements: g.k,
    }
}

// Lays a game out on a board: the one copy that is made of it. The answer is its sizes.
pub fn lay(g: Game, b: &mut [u64; WORDS]) -> Sizes
    requires { length b.old ≡ board_words }
    ensures { game_on result b.new ≡ g }
{
    let ins = g.input.moves;
    let outs = g.output.moves;
    let first = g.input.initial;
    let second = g.output.initial;
    let requirements = g.requirements;
    put_rows(b, 0, &ins);
    put_rows(b, sets::ROW_WORDS, &outs);
    put_set(b, IN_INITIAL, first);
    put_set(b, OUT_INITIAL, second);
    for r in 0..8 {
        let q = requirements[r];
        put_requirement(b, r, q);
    }
    sizes_of(g)
}
