// One component of the joined graph: its positions, and whether it is accepting.
#![tactic(auto)]

ghost use Rattle.std.specs.Prelude.{◌≡◌, true, ◌&&◌, ℕ, ◌+◌, ◌≤◌, ◌<◌, length, get_or};
ghost use Rattle.bits.specs.Member.{has, pack};
ghost use Rattle.sets.specs.Words.{bits_of};
ghost use Rattle.joint.specs.Solver.{inputs_of, outputs_of, returns, recurring};
ghost use Rattle.play.specs.Play.{separated_of};
ghost use Rattle.joined_reach.specs.Words.{joined_words, Small};
ghost use Rattle.joined_reach.specs.Reach.{Within};
ghost use Rattle.joined_component.specs.Component.{component, ranked_in, Drawn, due_on, served_on, accepts_at, accepts_on, Rows, Joined};

use game::{Game, InSet, InState, OutSet, OutState};
use joined_reach::{AHEAD, COMPONENT, FOUND, OutWord};
use sets::ROW_WORDS;

// ---- the component

// The outputs o that are found with input `at` and have n positions ahead of the position that they make. There are m outputs.
fn ranked_row(s: &[u64], m: usize, at: InState, n: u64) -> OutWord
    requires { (m ≤ 32) × (at.0 < 32) × (joined_words ≤ length s.now) × ((o : ℕ) → has (get_or s.now at.0 0) o ≡ true → o < m) }
    ensures { (o : ℕ) → has result.0 o ≡ (has (get_or s.now at.0 0) o && ranked_in s.now m at.0 n o) }
{
    let i = at.0;
    let mut c: u64 = 0;
    let mut rest = s[FOUND + i];
    while rest != 0 {
        let o = bits::lowest(rest);
        c = bits::insert_if(c, o, s[AHEAD + (i * m + o)] == n);
        rest = bits::without_lowest(rest);
    }
    OutWord(c)
}

// The component of the position from which everything was found, n positions being ahead of it: what has fewer ahead does not lead back.
pub fn draw_component(g: Game, s: &mut [u64], n: u64)
    requires { Small g × (joined_words ≤ length s.old) × Within g s.old }
    ensures { Drawn g n s.old s.new }
{
    for i in 0..g.input.states {
        let row = ranked_row(s, g.output.states, InState(i), n);
        s[COMPONENT + i] = row.0;
    }
}

// Adds the component to the set that begins at word a.
pub fn join(g: Game, s: &mut [u64], a: usize)
    requires { Small g × (a + 32 ≤ 128) × (joined_words ≤ length s.old) }
    ensures { Joined g a s.old s.new }
{
    for i in 0..g.input.states {
        s[a + i] = bits::union(s[a + i], s[COMPONENT + i]);
    }
}

// ---- whether it is accepting

// The inputs of the component's positions.
fn inputs_of(g: Game, s: &[u64]) -> InSet
    requires { Small g × (joined_words ≤ length s.now) × Rows g s.now }
    ensures { bits_of result.0 ≡ pack g.input.states (inputs_of (separated_of g) (component g s.now)) }
{
    let mut c: u64 = 0;
    for i in 0..g.input.states {
        c = bits::insert_if(c, i, s[COMPONENT + i] != 0);
    }
    InSet(sets::of_word(c))
}

// The outputs of the component's positions.
fn outputs_of(g: Game, s: &[u64]) -> OutSet
    requires { Small g × (joined_words ≤ length s.now) }
    ensures { (o : ℕ) → has (bits_of result.0) o ≡ outputs_of (separated_of g) (component g s.now) o }
{
    let mut c: u64 = 0;
    for i in 0..g.input.states {
        c = bits::union(c, s[COMPONENT + i]);
    }
    OutSet(sets::of_word(c))
}

// Whether requirement r is due where the inputs x recur: all its input sets meet them.
fn is_due(g: Game, r: usize, x: InSet) -> bool
    requires { Small g × (r < g.k) }
    ensures { result ≡ due_on g (bits_of x.0) r }
{
    let q = g.requirements[r];
    let n = q.assumed;
    for j in 0..n {
        let a = q.assumptions[j];
        if !sets::meets(a.0, x.0) {
            return false;
        }
    }
    true
}

// Whether requirement r is served where the outputs y recur: all its output sets meet them.
fn is_served(g: Game, r: usize, y: OutSet) -> bool
    requires { Small g × (r < g.k) }
    ensures { result ≡ served_on g (bits_of y.0) r }
{
    let q = g.requirements[r];
    let n = q.guaranteed;
    for j in 0..n {
        let a = q.guarantees[j];
        if !sets::meets(a.0, y.0) {
            return false;
        }
    }
    true
}

// Whether requirement r is not due where the inputs x recur, or is served where the outputs y recur.
fn is_met(g: Game, r: usize, x: InSet, y: OutSet) -> bool
    requires { Small g × (r < g.k) }
    ensures { result ≡ accepts_at g (bits_of x.0) (bits_of y.0) r }
{
    if is_due(g, r, x) {
        return is_served(g, r, y);
    }
    true
}

// Whether every requirement that is due where the inputs x recur is served where the outputs y recur.
fn accepts(g: Game, x: InSet, y: OutSet) -> bool
    requires { Small g }
    ensures { result ≡ accepts_on g (bits_of x.0) (bits_of y.0) }
{
    for r in 0..g.k {
        if !is_met(g, r, x, y) {
            return false;
        }
    }
    true
}

// Whether a joint move from (i, o) enters the component.
fn returns_to(
    g: Game,
    ins: &[u64; ROW_WORDS],
    outs: &[u64; ROW_WORDS],
    s: &[u64],
    i: InState,
    o: OutState,
) -> bool
    requires { Small g × (i.0 < g.input.states) × (o.0 < g.output.states) × (joined_words ≤ length s.now) × (ins.now ≡ g.input.moves)
        × (outs.now ≡ g.output.moves) }
    ensures { result ≡ returns (separated_of g) (component g s.now) i.0 o.0 }
{
    let moves = joined_reach::output_moves(g, outs, o);
    let next = joined_reach::input_moves(g, ins, i);
    let mut rest = next.0;
    while rest != 0 {
        let j = bits::lowest(rest);
        if bits::meets(s[COMPONENT + j], moves.0) {
            return true;
        }
        rest = bits::without_lowest(rest);
    }
    false
}

// Whether the component, that of (i, o), is accepting. No play stays in a lone position that does not move to itself: it is not.
pub fn accepting(
    g: Game,
    ins: &[u64; ROW_WORDS],
    outs: &[u64; ROW_WORDS],
    s: &[u64],
    i: InState,
    o: OutState,
) -> bool
    requires { Small g × (i.0 < g.input.states) × (o.0 < g.output.states) × (joined_words ≤ length s.now) × Rows g s.now
        × (ins.now ≡ g.input.moves) × (outs.now ≡ g.output.moves) }
    ensures { result ≡ recurring (separated_of g) (component g s.now) i.0 o.0 }
{
    if !returns_to(g, ins, outs, s, i, o) {
        return false;
    }
    accepts(g, inputs_of(g, s), outputs_of(g, s))
}
