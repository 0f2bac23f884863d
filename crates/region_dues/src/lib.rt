// Requirements that are due or served in a component, and the outputs whose components accept those of an input.
#![tactic(auto)]

ghost use Rattle.std.specs.Prelude.{◌≡◌, not, ◌&&◌, ◌||◌, ℕ, ◌+◌, ◌≤◌, ◌<◌, length};
ghost use Rattle.finite.specs.Bounded.{all};
ghost use Rattle.bits.specs.Member.{has};
ghost use Rattle.sets.specs.Words.{bits_of, sets_in, set_count};
ghost use Rattle.game.specs.Fits.{Fits};
ghost use Rattle.game.specs.declared.Game.{Game};
ghost use Rattle.board.specs.Board.{game_on};
ghost use Rattle.scratch.specs.Stored.{Laid};
ghost use Rattle.region_dues.specs.Dues.{
  due_by,
  served_by,
  Few,
  FewSets,
  FirstFour,
  Whole,
  Marked,
  Serving,
  admits_by,
  admits,
};

use board::Sizes;
use game::{InSet, OutSet, OutState};

// For each requirement the outputs whose component serves it. One set for each, so that an input's component is compared with all outputs at once.
// No array may have over eight words (M-103), and eight sets have sixteen: those of the first four requirements, then of the others. Without the list,
// each input would have all outputs' components searched anew for each requirement. They stand as words, so that they can be lent and changed in place.
#[derive(Clone, Copy)]
pub struct Servers {
    pub first: [u64; 8],
    pub second: [u64; 8],
}

// How many of k requirements are among the first four.
fn first_four(k: usize) -> usize
    requires { k ≤ 8 }
    ensures { FirstFour k result }
{
    if k < 4 {
        return k;
    }
    4
}

// Whether every input set in use of requirement r meets the set c.
fn all_assumed(b: &[u64; board::WORDS], r: usize, c: InSet) -> bool
    requires { (r < 8) × FewSets b.now }
    ensures { result ≡ due_by b.now (bits_of c.0) r }
{
    let n = board::assumed(b, r);
    for j in 0..n {
        let x = board::assumption(b, r, j);
        if !sets::meets(x.0, c.0) {
            return false;
        }
    }
    true
}

// Whether every output set in use of requirement r meets the set c.
fn all_guaranteed(b: &[u64; board::WORDS], r: usize, c: OutSet) -> bool
    requires { (r < 8) × FewSets b.now }
    ensures { result ≡ served_by b.now (bits_of c.0) r }
{
    let n = board::guaranteed(b, r);
    for j in 0..n {
        let x = board::guarantee(b, r, j);
        if !sets::meets(x.0, c.0) {
            return false;
        }
    }
    true
}

// Puts the outputs of a component c into the set of each requirement that it serves, of the n requirements from number `from` on, whose sets are those of t.
fn mark(b: &[u64; board::WORDS], from: usize, n: usize, c: OutSet, t: &mut [u64])
    requires { (from + n ≤ 8) × FewSets b.now × (n ≤ set_count t.old) }
    ensures { Marked b.now from n (bits_of c.0) (sets_in t.old) (sets_in t.new)
        × (length t.new ≡ length t.old) }
{
    for q in 0..n {
        let x = sets::row(t, q);
        let y = sets::union_if(x, c.0, all_guaranteed(b, from + q, c));
        sets::put(t, q, y);
    }
}

// The outputs whose components serve each requirement, from scratch that holds the outputs' closure. Each component is worked out once, for its first output.
pub fn served(z: Sizes, b: &[u64; board::WORDS], s: &[u64]) -> Servers
    ghost g: { Game }
    requires b_value { game_on z b.now ≡ g }
    requires fits { Fits g × Laid g s.now }
    ensures { Serving g result.first result.second }
{
    let k = z.requirements;
    let few = first_four(k);
    let more = k - few;
    let mut first: [u64; 8] = [0; 8];
    let mut second: [u64; 8] = [0; 8];
    let mut rest = sets::below(z.outputs);
    while !sets::is_empty(rest) {
        let d = OutState(sets::lowest(rest));
        let c = scratch::out_component(s, z.inputs, z.outputs, d, board::out_row(b, d));
        mark(b, 0, few, c, &mut first);
        mark(b, 4, more, c, &mut second);
        rest = sets::difference(rest, c.0);
    }
    Servers { first, second }
}

// The outputs of x that belong to y where a requirement is due, or else all of them.
fn admitted(due: bool, y: OutSet, x: OutSet) -> OutSet
    ensures { (d : ℕ) → has (bits_of result.0) d ≡ (has (bits_of x.0) d && (not due || has (bits_of y.0) d)) }
{
    if due {
        return OutSet(sets::intersection(x.0, y.0));
    }
    x
}

// The outputs of x that are in the set of each requirement that is due in the set a of inputs, of the n requirements from number `from` on, whose sets are
// those of t.
fn narrow(b: &[u64; board::WORDS], from: usize, n: usize, t: &[u64], a: InSet, x: OutSet) -> OutSet
    requires { (from + n ≤ 8) × FewSets b.now × (n ≤ set_count t.now) }
    ensures { (d : ℕ) → has (bits_of result.0) d ≡ (has (bits_of x.0) d
        && all n (admits_by b.now from (bits_of a.0) (sets_in t.now) d)) }
{
    let mut y = x;
    for q in 0..n {
        let due = all_assumed(b, from + q, a);
        y = admitted(due, OutSet(sets::row(t, q)), y);
    }
    y
}

// The outputs of x whose components serve every requirement that is due in the set a of inputs.
pub fn accepted(z: Sizes, b: &[u64; board::WORDS], t: Servers, a: InSet, x: OutSet) -> OutSet
    ghost g: { Game }
    requires b_value { game_on z b.now ≡ g }
    requires few { Few g × Whole t.first t.second }
    ensures { (d : ℕ) → has (bits_of result.0) d ≡ (has (bits_of x.0) d
        && all z.requirements (admits g (bits_of a.0) t.first t.second d)) }
{
    let k = z.requirements;
    let few = first_four(k);
    let y = narrow(b, 0, few, &t.first, a, x);
    narrow(b, 4, k - few, &t.second, a, y)
}
