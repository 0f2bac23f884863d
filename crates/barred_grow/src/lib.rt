// What is reached, grown step by step: a position is added as soon as every next input has a reply into the goal that is kept, or into what is reached.
// The inputs whose rows have grown are followed together, again and again. Three tables say where to look: a wrong entry would cost time, and no more.
#![tactic(auto)]

ghost use Rattle.std.specs.Prelude.{◌≡◌, true, ◌&&◌, ◌||◌, List, ℕ, ◌+◌, ◌≤◌, ◌<◌, get_or};
ghost use Rattle.finite.specs.But.{ButFor};
ghost use Rattle.bits.specs.Member.{has, sets_meet};
ghost use Rattle.sets.specs.Words.{capacity, bits_of, sets_in, set_count};
ghost use Rattle.arena.specs.Arena.{Requirement};
ghost use Rattle.game.specs.Fits.{Fits};
ghost use Rattle.barred_rows.specs.Areas.{barred_sets, kept_pairs, reached_pairs, reached_at, staying_at};
ghost use Rattle.barred_stay.specs.Stay.{Within};
ghost use Rattle.barred_grow.specs.Grow.{Low, Inside, Joins, Grown, Wider};

use barred_rows::{BEFORE_INPUT, BEFORE_OUTPUT, FOLLOWED, REACHED, STAYING};
use game::{Game, InSet, InState, OutSet};
use sets::{ROW_WORDS, Set};

// State s moves to the states of row: s is written to their sets, from number `at` on.
fn turn_row(s: &mut [u64], n: usize, at: usize, state: usize, row: Set)
    requires { (n ≤ capacity) × (state < capacity) × (at + capacity ≤ barred_sets) × (barred_sets ≤ set_count s.old) }
    ensures { ButFor at (at + n) (sets_in s.old) (sets_in s.new) }
{
    for t in sets::intersection(row, sets::below(n)) {
        let old = sets::row(s, at + t);
        sets::put(s, at + t, sets::insert(old, state));
    }
}

// Writes for each state the states that move to it, from set number `at` on.
fn turn(moves: &[u64; ROW_WORDS], n: usize, s: &mut [u64], at: usize)
    requires { (n ≤ capacity) × (at + capacity ≤ barred_sets) × (barred_sets ≤ set_count s.old) }
    ensures { ButFor at (at + n) (sets_in s.old) (sets_in s.new) }
{
    barred_rows::empty(s, n, at);
    for i in 0..n {
        turn_row(s, n, at, i, sets::row_of(moves, i));
    }
}

// Writes which states move to a state, of both graphs.
pub fn prepare(g: Game, s: &mut [u64])
    requires { Fits g × (barred_sets ≤ set_count s.old) }
    ensures { ButFor reached_at staying_at (sets_in s.old) (sets_in s.new) }
{
    let h = g.input;
    let f = g.output;
    turn(&h.moves, g.input.states, s, BEFORE_INPUT);
    turn(&f.moves, g.output.states, s, BEFORE_OUTPUT);
}

// The outputs that move to one of x, as the tables have them.
fn moving(s: &[u64], m: usize, x: Set) -> Set
    requires { (m ≤ capacity) × (barred_sets ≤ set_count s.now) }
{
    let mut c = sets::empty();
    for t in sets::intersection(x, sets::below(m)) {
        c = sets::union(c, sets::row(s, BEFORE_OUTPUT + t));
    }
    c
}

// The outputs of `among` below m that have a move into x.
fn answering(moves: &[u64; ROW_WORDS], m: usize, x: Set, among: Set) -> Set
    requires { m ≤ capacity }
    ensures { (o : ℕ) → has (bits_of result) o ≡ true → sets_meet capacity (get_or (sets_in moves.now) o 0) (bits_of x) ≡ true }
{
    let mut c = sets::empty();
    for o in sets::intersection(among, sets::below(m)) {
        c = sets::insert_if(c, o, sets::meets(sets::row_of(moves, o), x));
    }
    c
}

// The outputs that a reply to input j is to enter: a goal that is kept, or what is reached.
fn near(s: &[u64], j: usize, goal: OutSet) -> Set
    requires { (j < capacity) × (barred_sets ≤ set_count s.now) }
    ensures { (p : ℕ) → has (bits_of result) p ≡ ((has (bits_of goal.0) p && kept_pairs (sets_in s.now) j p)
        || reached_pairs (sets_in s.now) j p) }
{
    let goals = sets::intersection(goal.0, sets::row(s, j));
    sets::union(goals, sets::row(s, REACHED + j))
}

// The outputs that are kept with input i, not reached, and allowed with every next input.
fn joining(ins: &[u64; ROW_WORDS], n: usize, s: &[u64], i: usize) -> Set
    requires { (n ≤ capacity) × (i < n) × (barred_sets ≤ set_count s.now) × Inside (sets_in ins.now) n }
    ensures { Joins (sets_in ins.now) i (bits_of result) (sets_in s.now) }
{
    let mut x = sets::difference(sets::row(s, i), sets::row(s, REACHED + i));
    for t in sets::row_of(ins, i) {
        if sets::is_empty(x) {
            return x;
        }
        x = sets::intersection(x, sets::row(s, STAYING + t));
    }
    x
}

// Adds to row i of what is reached what joins it. Where it grows, i is left to be followed.
fn grow_row(ins: &[u64; ROW_WORDS], n: usize, s: &mut [u64], i: usize, left: InSet) -> InSet
    requires { (n ≤ capacity) × (i < n) × (barred_sets ≤ set_count s.old) × Inside (sets_in ins.now) n }
    ensures { (outs : List ℕ) (v : ℕ) → Grown (sets_in ins.now) outs n v (bits_of left.0) (bits_of result.0)
        (sets_in s.old) (sets_in s.new) }
{
    let more = joining(ins, n, s, i);
    if sets::is_empty(more) {
        return left;
    }
    sets::put(s, REACHED + i, sets::union(sets::row(s, REACHED + i), more));
    InSet(sets::insert(left.0, i))
}

// The same for the inputs of x. Those whose row grows are left.
fn grow_rows(ins: &[u64; ROW_WORDS], n: usize, s: &mut [u64], x: InSet) -> InSet
    requires { (n ≤ capacity) × (barred_sets ≤ set_count s.old) × Inside (sets_in ins.now) n }
    ensures { (outs : List ℕ) (v : ℕ) → Grown (sets_in ins.now) outs n v 0 (bits_of result.0)
        (sets_in s.old) (sets_in s.new) }
{
    let mut more = InSet(sets::empty());
    for t in sets::intersection(x.0, sets::below(n)) {
        more = grow_row(ins, n, s, t, more);
    }
    more
}

// Allows with input j the outputs that have a move into what a reply to it is to enter. The answer is those that are new.
fn allow(outs: &[u64; ROW_WORDS], n: usize, m: usize, s: &mut [u64], j: usize, goal: OutSet) -> Set
    requires { (n ≤ capacity) × (m ≤ capacity) × (j < n) × (barred_sets ≤ set_count s.old) }
    ensures { (ins : List ℕ) (x : ℕ) → Grown ins (sets_in outs.now) n (bits_of goal.0) x x
        (sets_in s.old) (sets_in s.new) }
{
    let x = near(s, j, goal);
    let fresh = sets::difference(x, sets::row(s, FOLLOWED + j));
    let old = sets::row(s, STAYING + j);
    let among = sets::difference(moving(s, m, fresh), old);
    let new = answering(outs, m, fresh, among);
    sets::put(s, FOLLOWED + j, x);
    sets::put(s, STAYING + j, sets::union(old, new));
    new
}

// The same for every input that is left. The answer is the inputs that move to one with which more is allowed now, as the tables have them.
fn allow_left(
    outs: &[u64; ROW_WORDS],
    n: usize,
    m: usize,
    s: &mut [u64],
    goal: OutSet,
    left: InSet,
) -> InSet
    requires { (n ≤ capacity) × (m ≤ capacity) × (barred_sets ≤ set_count s.old) × Low n (bits_of left.0) }
    ensures { (ins : List ℕ) (x : ℕ) → Grown ins (sets_in outs.now) n (bits_of goal.0) x x
        (sets_in s.old) (sets_in s.new) }
{
    let mut before = sets::empty();
    for j in left.0 {
        let new = allow(outs, n, m, s, j, goal);
        before = sets::union_if(before, sets::row(s, BEFORE_INPUT + j), !sets::is_empty(new));
    }
    InSet(before)
}

// Follows the inputs that are left.
fn follow(
    ins: &[u64; ROW_WORDS],
    n: usize,
    outs: &[u64; ROW_WORDS],
    m: usize,
    s: &mut [u64],
    goal: OutSet,
    left: InSet,
) -> InSet
    requires { (n ≤ capacity) × (m ≤ capacity) × (barred_sets ≤ set_count s.old) × Low n (bits_of left.0) × Inside (sets_in ins.now) n }
    ensures { Grown (sets_in ins.now) (sets_in outs.now) n (bits_of goal.0) 0 (bits_of result.0)
        (sets_in s.old) (sets_in s.new) }
{
    let before = allow_left(outs, n, m, s, goal, left);
    grow_rows(ins, n, s, before)
}

// Grows what is reached as far as single steps go.
pub fn grow(g: Game, s: &mut [u64], goal: OutSet)
    requires { Fits g × (barred_sets ≤ set_count s.old) × Within g (sets_in s.old) }
    ensures { (q : Requirement) → Wider g q (bits_of goal.0) (sets_in s.old) (sets_in s.new) }
{
    let h = g.input;
    let f = g.output;
    barred_rows::empty(s, g.input.states, FOLLOWED);
    barred_rows::empty(s, g.input.states, STAYING);
    let mut left = InSet(sets::below(g.input.states));
    // with an input that has no next one all that is kept joins
    grow_rows(&h.moves, g.input.states, s, left);
    while !sets::is_empty(left.0) {
        left = follow(
            &h.moves,
            g.input.states,
            &f.moves,
            g.output.states,
            s,
            goal,
            left,
        );
    }
}
