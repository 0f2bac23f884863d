// Inputs that follow one another and have the same row of the region: what the row alone decides is asked of the first of them.
#![tactic(auto)]

ghost use Rattle.std.specs.Prelude.{◌≡◌, true, ◌&&◌, not, ℕ, ◌+◌, ◌≤◌, ◌<◌, ltb};
ghost use Rattle.bits.specs.Member.{has, pack, within};
ghost use Rattle.sets.specs.Words.{capacity, bits_of, sets_in, set_count};
ghost use Rattle.region_runs.specs.Runs.{begins_at, Runs, spread_at};

use game::{InSet, InState};
use sets::Set;

// Whether a run begins at input j: the input before it is not one of c, or has another row.
fn begins(s: &[u64], n: usize, c: InSet, j: InState) -> bool
    requires { (n ≤ capacity) × (j.0 < n) × (n + n ≤ set_count s.now) }
    ensures { result ≡ begins_at (sets_in s.now) n (bits_of c.0) j.0 }
{
    if j.0 == 0 {
        return true;
    }
    let i = j.0 - 1;
    if !sets::member(c.0, i) {
        return true;
    }
    let last = scratch::region_row(s, n, InState(i));
    let row = scratch::region_row(s, n, j);
    !sets::same(last.0, row.0)
}

// The inputs of c below n at which a run begins.
fn begun(s: &[u64], n: usize, c: InSet) -> InSet
    requires { (n ≤ capacity) × (n + n ≤ set_count s.now) }
    ensures { Runs (sets_in s.now) n (bits_of c.0) (bits_of result.0) }
{
    let mut x = sets::empty();
    for j in sets::intersection(c.0, sets::below(n)) {
        x = sets::insert_if(x, j, begins(s, n, c, InState(j)));
    }
    InSet(x)
}

// Inputs of c below n that begin its runs. Where these would have fewer than four inputs each, on the whole, each input begins one: to go from run to run
// costs more than to ask of each.
pub fn firsts(s: &[u64], n: usize, c: InSet) -> InSet
    requires { (n ≤ capacity) × (n + n ≤ set_count s.now) }
    ensures { Runs (sets_in s.now) n (bits_of c.0) (bits_of result.0) }
{
    let x = begun(s, n, c);
    let all = sets::intersection(c.0, sets::below(n));
    if sets::count(all) < 4 * sets::count(x.0) {
        return InSet(all);
    }
    x
}

// The members of x from j on and below k.
fn between(x: Set, j: usize, k: usize) -> Set
    requires { (j ≤ capacity) × (k ≤ capacity) }
    ensures { (t : ℕ) → has (bits_of result) t ≡ (has (bits_of x) t && (not (ltb t j) && ltb t k)) }
{
    sets::intersection(sets::difference(x, sets::below(j)), sets::below(k))
}

// The inputs of c below n whose run begins in x. Where each begins one of its own these are x.
pub fn spread(n: usize, c: InSet, firsts: InSet, x: InSet) -> InSet
    requires { (n ≤ capacity) × (within (bits_of firsts.0) n ≡ true)
        × ((t : ℕ) → has (bits_of x.0) t ≡ true → has (bits_of firsts.0) t ≡ true) }
    ensures { bits_of result.0 ≡ pack n (spread_at (bits_of c.0) (bits_of firsts.0) (bits_of x.0)) }
{
    let all = sets::intersection(c.0, sets::below(n));
    if sets::same(firsts.0, all) {
        return x;
    }
    let mut y = sets::empty();
    let mut rest = firsts.0;
    while !sets::is_empty(rest) {
        let j = sets::lowest(rest);
        rest = sets::without_lowest(rest);
        let run = between(all, j, sets::lowest(rest));
        y = sets::union_if(y, run, sets::member(x.0, j));
    }
    InSet(y)
}
