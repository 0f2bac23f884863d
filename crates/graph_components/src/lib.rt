// Strongly connected components of a graph, in sets, from the rows of its closure.
#![tactic(auto)]

ghost use Rattle.std.specs.Prelude.{◌≡◌, not, ◌&&◌, ◌||◌, ℕ, ◌≤◌, ◌<◌};
ghost use Rattle.bits.specs.Member.{has, pack, sets_meet};
ghost use Rattle.sets.specs.Words.{capacity, bits_of, sets_in, set_count};
ghost use Rattle.graph_components.specs.Component.{Transitive, together, Pruned, nontrivial_at, enters};

use sets::Set;

// Whether t belongs to row and s to other.
fn both_ways(row: Set, other: Set, s: usize, t: usize) -> bool
    requires { (s < capacity) × (t < capacity) }
    ensures { result ≡ (has (bits_of row) t && has (bits_of other) s) }
{
    if sets::member(row, t) {
        return sets::member(other, s);
    }
    false
}

// x itself where s belongs to `other`; or else x without the members of `other`.
fn spared(x: Set, other: Set, s: usize) -> Set
    requires { s < capacity }
    ensures { (t : ℕ) → has (bits_of result) t ≡ (has (bits_of x) t && (has (bits_of other) s || not (has (bits_of other) t))) }
{
    if sets::member(other, s) {
        return x;
    }
    sets::difference(x, other)
}

// The states that s reaches, without all that a state of `near` reaches which does not reach s itself: none of that reaches s.
fn pruned(rows: &[u64], n: usize, s: usize, near: Set) -> Set
    requires { (n ≤ capacity) × (s < n) × (n ≤ set_count rows.now) × Transitive (sets_in rows.now) n }
    ensures { Pruned (sets_in rows.now) n s (bits_of result) }
{
    let mut x = sets::intersection(sets::row(rows, s), sets::below(n));
    for t in sets::intersection(x, near) {
        let row = sets::row(rows, t);
        x = spared(x, row, s);
    }
    x
}

// The states that s reaches and that reach s. `near` may be any set, and the moves of s serve best: where one of them does not lead back, nothing that it
// reaches is looked at. The same goes for each state that is looked at then. Here the test is a branch and no call of `spared`, with which each turn would
// wait for the row that the last has read.
pub fn component(rows: &[u64], n: usize, s: usize, near: Set) -> Set
    requires { (n ≤ capacity) × (s < n) × (n ≤ set_count rows.now) × Transitive (sets_in rows.now) n }
    ensures { bits_of result ≡ pack n (together (sets_in rows.now) s) }
{
    let mut c = sets::empty();
    let mut rest = pruned(rows, n, s, near);
    while !sets::is_empty(rest) {
        let t = sets::lowest(rest);
        let row = sets::row(rows, t);
        rest = sets::without_lowest(rest);
        if sets::member(row, s) {
            c = sets::insert(c, t);
        } else {
            rest = sets::difference(rest, row);
        }
    }
    c
}

// Whether a state of x reaches s and is reached by it. The component is not worked out for that: most sets of moves are small.
fn comes_back(rows: &[u64], n: usize, s: usize, x: Set) -> bool
    requires { (n ≤ capacity) × (s < n) × (n ≤ set_count rows.now) }
    ensures { result ≡ sets_meet capacity (bits_of x) (pack n (together (sets_in rows.now) s)) }
{
    let row = sets::row(rows, s);
    for t in sets::intersection(x, sets::below(n)) {
        if both_ways(row, sets::row(rows, t), s, t) {
            return true;
        }
    }
    false
}

// The states of nontrivial components: a move stays inside. Of the graph its rows, `moves`, and the number n of its states are given.
pub fn nontrivial(moves: &[u64], n: usize, rows: &[u64]) -> Set
    requires { (n ≤ capacity) × (n ≤ set_count rows.now) × (n ≤ set_count moves.now) }
    ensures { bits_of result ≡ pack n (nontrivial_at (sets_in moves.now) (sets_in rows.now) n) }
{
    let mut c = sets::empty();
    for s in 0..n {
        let row = sets::row(moves, s);
        c = sets::insert_if(c, s, comes_back(rows, n, s, row));
    }
    c
}

// The states that moves out of the states of c enter.
fn entering(moves: &[u64], n: usize, c: Set) -> Set
    requires { (n ≤ capacity) × (n ≤ set_count moves.now) }
    ensures { (t : ℕ) → has (bits_of result) t ≡ enters (sets_in moves.now) (bits_of c) n t }
{
    let mut x = sets::empty();
    for k in sets::intersection(c, sets::below(n)) {
        x = sets::union(x, sets::row(moves, k));
    }
    x
}

// The states entered by a move out of the set c.
pub fn leaving(moves: &[u64], n: usize, c: Set) -> Set
    requires { (n ≤ capacity) × (n ≤ set_count moves.now) }
    ensures { (t : ℕ) → has (bits_of result) t ≡ (enters (sets_in moves.now) (bits_of c) n t && not (has (bits_of c) t)) }
{
    sets::difference(entering(moves, n, c), c)
}
