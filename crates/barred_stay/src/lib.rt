// Where the controller can stay: the greatest set of positions X inside Z in which every next input has a reply into the target.
#![tactic(auto)]

ghost use Rattle.std.specs.Prelude.{◌≡◌, true, ◌≢◌, ℕ, ◌≤◌, ◌<◌, get_or};
ghost use Rattle.bits.specs.Member.{has, sets_meet, pack};
ghost use Rattle.sets.specs.Words.{capacity, bits_of, sets_in, set_count};
ghost use Rattle.game.specs.Fits.{Fits};
ghost use Rattle.barred.specs.Region.{barred_target as targeted};
ghost use Rattle.barred_rows.specs.Areas.{barred_sets, kept_pairs, reached_pairs, staying_pairs};
ghost use Rattle.barred_stay.specs.Stay.{Within, RowShrunk, Shrunk, Followed, Stayed};

use barred_rows::{KEPT, REACHED, STAYING};
use game::{Game, InSet, InState, OutSet};
use sets::ROW_WORDS;

// The outputs that a reply to input j is to enter: a goal that is kept, or what is reached; or, where j is not waited for, what is staying.
fn target(s: &[u64], j: InState, goal: OutSet, wait: InSet) -> OutSet
    requires { (j.0 < capacity) × (barred_sets ≤ set_count s.now) }
    ensures { (p : ℕ) → has (bits_of result.0) p
        ≡ targeted (has (bits_of goal.0)) (has (bits_of wait.0)) (kept_pairs (sets_in s.now)) (reached_pairs (sets_in s.now))
        (staying_pairs (sets_in s.now)) j.0 p }
{
    let at = j.0;
    let goals = sets::intersection(goal.0, sets::row(s, at));
    let on = !sets::member(wait.0, at);
    let others = sets::union_if(sets::row(s, REACHED + at), sets::row(s, STAYING + at), on);
    OutSet(sets::union(goals, others))
}

// The outputs below m that have a move into x.
fn answering(moves: &[u64; ROW_WORDS], m: usize, x: OutSet) -> OutSet
    requires { m ≤ capacity }
    ensures { bits_of result.0 ≡ pack m (λ o. sets_meet capacity (get_or (sets_in moves.now) o 0) (bits_of x.0)) }
{
    let mut c = sets::empty();
    for o in 0..m {
        c = sets::insert_if(c, o, sets::meets(sets::row_of(moves, o), x.0));
    }
    OutSet(c)
}

// Leaves in row i of what is staying the outputs that are allowed. Where the row shrinks and i is not waited for, i is left to be followed.
fn shrink_row(s: &mut [u64], i: InState, allowed: OutSet, wait: InSet, left: InSet) -> InSet
    requires { (i.0 < capacity) × (barred_sets ≤ set_count s.old) }
    ensures { RowShrunk i.0 (bits_of allowed.0) (bits_of wait.0) (bits_of left.0) (bits_of result.0)
        (sets_in s.old) (sets_in s.new) }
{
    let row = i.0;
    let old = sets::row(s, STAYING + row);
    let lost = sets::difference(old, allowed.0);
    if sets::is_empty(lost) {
        return left;
    }
    sets::put(s, STAYING + row, sets::difference(old, lost));
    if sets::member(wait.0, row) {
        return left;
    }
    InSet(sets::insert(left.0, row))
}

// Leaves in the rows of the inputs that move to j the outputs that are allowed.
fn shrink(
    moves: &[u64; ROW_WORDS],
    n: usize,
    s: &mut [u64],
    j: InState,
    allowed: OutSet,
    wait: InSet,
    left: InSet,
) -> InSet
    requires { (n ≤ capacity) × (j.0 < capacity) × (barred_sets ≤ set_count s.old) }
    ensures { Shrunk (sets_in moves.now) n j.0 (bits_of allowed.0) (bits_of wait.0) (bits_of left.0) (bits_of result.0)
        (sets_in s.old) (sets_in s.new) }
{
    let next = j.0;
    let mut more = left;
    for i in 0..n {
        if sets::member(sets::row_of(moves, i), next) {
            more = shrink_row(s, InState(i), allowed, wait, more);
        }
    }
    more
}

// Follows the lowest input that is left: only outputs with a move into its target may stay with the inputs that move to it.
fn follow(
    ins: &[u64; ROW_WORDS],
    n: usize,
    outs: &[u64; ROW_WORDS],
    m: usize,
    s: &mut [u64],
    goal: OutSet,
    wait: InSet,
    left: InSet,
) -> InSet
    requires { (n ≤ capacity) × (m ≤ capacity) × (barred_sets ≤ set_count s.old) × (bits_of left.0 ≢ 0)
        × ((j : ℕ) → has (bits_of left.0) j ≡ true → j < n) }
    ensures { Followed (sets_in ins.now) n (sets_in outs.now) m (bits_of goal.0) (bits_of wait.0) (bits_of left.0)
        (bits_of result.0) (sets_in s.old) (sets_in s.new) }
{
    let j = sets::lowest(left.0);
    let allowed = answering(outs, m, target(s, InState(j), goal, wait));
    let rest = sets::without_lowest(left.0);
    shrink(ins, n, s, InState(j), allowed, wait, InSet(rest))
}

// Finds where the controller can stay.
pub fn stay(g: Game, s: &mut [u64], goal: OutSet, wait: InSet)
    requires { Fits g × (barred_sets ≤ set_count s.old) × Within g (sets_in s.old) }
    ensures { Stayed g (bits_of goal.0) (bits_of wait.0) (sets_in s.old) (sets_in s.new) }
{
    let h = g.input;
    let f = g.output;
    // what is kept is what is staying, to begin with
    barred_rows::copy(s, g.input.states, KEPT, STAYING);
    let mut left = InSet(sets::below(g.input.states));
    while !sets::is_empty(left.0) {
        left = follow(
            &h.moves,
            g.input.states,
            &f.moves,
            g.output.states,
            s,
            goal,
            wait,
            left,
        );
    }
}
