// The tests of acceptance on one graph.
#![tactic(auto)]

ghost use Rattle.std.specs.Prelude.{◌≡◌, ◌≤◌, min};
ghost use Rattle.bits.specs.Member.{within};
ghost use Rattle.sets.specs.Words.{capacity, bits_of, sets_in, set_count};
ghost use Rattle.game.specs.Acceptance.{limit as limitOf, count_fits, states_fit, has_initial};
ghost use Rattle.accept_graph.specs.Past.{Past};

use game::Graph;
use sets::Set;

// n where place j is below used, else 0.
pub fn limit(used: usize, j: usize, n: usize) -> usize
    ensures { result ≡ limitOf used j n }
{
    if j < used {
        return n;
    }
    0
}

pub fn count_fits(g: Graph) -> bool
    ensures { result ≡ count_fits g }
{
    if g.states < 1 {
        return false;
    }
    g.states <= sets::CAPACITY
}

// Whether a row, the moves of state s of n, has no state past the count, and none at all where s is past it. Only the row is passed, for a graph goes
// by value and would be copied for each of its rows.
fn row_fits(row: Set, n: usize, s: usize) -> bool
    ensures { result ≡ within (bits_of row) (limitOf n s n) }
{
    sets::within(row, limit(n, s, n))
}

// The states of all rows past the first n, joined: a plain union goes through them faster than a test of each, and a small game has many.
fn joined_past(moves: &[u64], n: usize) -> Set
    requires { capacity ≤ set_count moves.now }
    ensures { Past (sets_in moves.now) n capacity (bits_of result) }
{
    let mut x = sets::empty();
    for s in n..sets::CAPACITY {
        x = sets::union(x, sets::row(moves, s));
    }
    x
}

// n, but not more than there are rows.
fn first_rows(n: usize) -> usize
    ensures { result ≡ min n capacity }
{
    if n < sets::CAPACITY {
        return n;
    }
    sets::CAPACITY
}

// The rows past the count are looked at together. The rows of g are lent besides g, as a graph that goes by value is copied.
pub fn states_fit(g: Graph, moves: &[u64]) -> bool
    requires { (moves.now ≡ g.moves) × (capacity ≤ set_count moves.now) }
    ensures { result ≡ states_fit g }
{
    if !sets::within(g.initial, g.states) {
        return false;
    }
    let past = joined_past(moves, g.states);
    if !sets::is_empty(past) {
        return false;
    }
    let m = first_rows(g.states);
    for s in 0..m {
        if !row_fits(sets::row(moves, s), g.states, s) {
            return false;
        }
    }
    true
}

pub fn has_initial(g: Graph) -> bool
    ensures { result ≡ has_initial g }
{
    !sets::is_empty(g.initial)
}
