// The reach of every state of a graph, by sweeps over all states.
#![tactic(auto)]

ghost use Rattle.std.specs.Prelude.{◌≡◌, List, ℕ, ◌≤◌};
ghost use Rattle.sets.specs.Words.{capacity, low_states, bits_of, sets_in, set_count};
ghost use Rattle.game.specs.declared.Graph.{Graph};
ghost use Rattle.graph_closure.specs.Sweep.{grown, first_rows, Given, Fixed, Ran, Closed};

use sets::Set;

// Row s becomes s and its moves. A move past the count is none.
fn start(moves: &[u64], n: usize, rows: &mut [u64])
    requires { (n ≤ capacity) × (n ≤ set_count rows.old) × (n ≤ set_count moves.now) }
    ensures { (h : Graph) → Given h n moves.now → sets_in rows.new ≡ first_rows h (sets_in rows.old) }
{
    let states = sets::below(n);
    for s in 0..n {
        let next = sets::row(moves, s);
        sets::put(rows, s, sets::insert(sets::intersection(next, states), s));
    }
}

// The set x with the rows of its members below n, which are low, those that join on the way included.
fn joined_low(rows: &[u64], n: usize, x: Set) -> Set
    requires { (n ≤ low_states) × (n ≤ set_count rows.now) }
    ensures { bits_of result ≡ grown (sets_in rows.now) n (bits_of x) }
{
    let mut y = x;
    for t in 0..n {
        if sets::member_low(y, t) {
            y = sets::union(y, sets::row(rows, t));
        }
    }
    y
}

// The same on, for the members that are not low.
fn joined_high(rows: &[u64], n: usize, x: Set) -> Set
    requires { (low_states ≤ n) × (n ≤ capacity) × (n ≤ set_count rows.now) }
    ensures { (z : ℕ) → bits_of x ≡ grown (sets_in rows.now) low_states z → bits_of result ≡ grown (sets_in rows.now) n z }
{
    let mut y = x;
    for t in sets::LOW..n {
        if sets::member_high(y, t) {
            y = sets::union(y, sets::row(rows, t));
        }
    }
    y
}

// The set x with the rows of its members below n, those that join on the way included. Low states and others apart, as to ask for a member
// costs less where it is known which it is.
fn joined(rows: &[u64], n: usize, x: Set) -> Set
    requires { (n ≤ capacity) × (n ≤ set_count rows.now) }
    ensures { bits_of result ≡ grown (sets_in rows.now) n (bits_of x) }
{
    if n <= sets::LOW {
        return joined_low(rows, n, x);
    }
    joined_high(rows, n, joined_low(rows, sets::LOW, x))
}

// The same, where the set `fixed` is known to hold the rows of its members: nothing joins it.
fn renewed(rows: &[u64], n: usize, fixed: Set, x: Set) -> Set
    requires { (n ≤ capacity) × (n ≤ set_count rows.now) × Fixed (sets_in rows.now) n (bits_of fixed) }
    ensures { bits_of result ≡ grown (sets_in rows.now) n (bits_of x) }
{
    if sets::same(x, fixed) {
        return x;
    }
    joined(rows, n, x)
}

// The set that is known to be such after one more row: that row, where nothing joined it. States of one component come to have the same row, so it is
// looked through once for all of them.
fn latest(fixed: Set, old: Set, new: Set) -> Set
    ensures { (l : List ℕ) (n : ℕ) → bits_of new ≡ grown l n (bits_of old) → Fixed l n (bits_of fixed) → Fixed l n (bits_of result) }
{
    if sets::same(new, old) {
        return old;
    }
    fixed
}

// One sweep over the states below n, in place, which moves the count of sweeps on. Whether it added a state to a row.
fn sweep(rows: &mut [u64], n: usize, sweeps: &mut usize) -> bool
    requires { (n ≤ capacity) × (n ≤ set_count rows.old) × (sweeps.old ≤ capacity) }
    ensures { Ran n (sets_in rows.old) (sets_in rows.new) result sweeps.old sweeps.new }
{
    let mut added = false;
    let mut fixed = sets::empty();
    for s in 0..n {
        let old = sets::row(rows, s);
        let new = renewed(rows, n, fixed, old);
        fixed = latest(fixed, old, new);
        if !sets::same(new, old) {
            sets::put(rows, s, new);
            added = true;
        }
    }
    *sweeps += 1;
    added
}

// Row s becomes the set of the states that s reaches, of n states with the rows `moves`; later sets stay. Sweeps end at the first that adds no state; their
// number is the answer. The graph is not passed itself, as it would be copied.
pub fn close(moves: &[u64], n: usize, rows: &mut [u64]) -> usize
    requires { (n ≤ capacity) × (n ≤ set_count rows.old) × (n ≤ set_count moves.now) }
    ensures { (h : Graph) → Given h n moves.now → Closed h (sets_in rows.old) (sets_in rows.new) result }
{
    start(moves, n, rows);
    let mut sweeps = 0;
    while sweep(rows, n, &mut sweeps) {}
    sweeps
}
