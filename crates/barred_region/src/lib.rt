// The winning region of the game with bars and one requirement, worked out in scratch: source document 002's fixpoint, told in crate barred.
#![tactic(auto)]

ghost use Rattle.std.specs.Prelude.{◌≤◌, ◌<◌};
ghost use Rattle.barred_rows.specs.Areas.{barred_sets};
ghost use Rattle.sets.specs.Words.{bits_of, sets_in, set_count};
ghost use Rattle.game.specs.Access.{requirement_at};
ghost use Rattle.game.specs.Fits.{Fits};
ghost use Rattle.barred.specs.Region.{assumed};
ghost use Rattle.barred_stay.specs.Stay.{Within};
ghost use Rattle.barred_region.specs.Region.{Waits, WidenedBy, Widened, ReachFound, Trimmed, Settled, Passed, Freed, RegionKept};

use barred_rows::{KEPT, REACHED, STAYING};
use game::{Game, InSet, OutSet};

// Set number j that is waited for: the inputs of every play first, then the input sets of the requirement.
fn waited(g: Game, j: usize) -> InSet
    requires { Fits g × (j ≤ (requirement_at g 0).assumed) }
    ensures { Waits g (bits_of result.0) j }
{
    if j == 0 {
        return InSet(sets::below(g.input.states));
    }
    game::assumption(g, 0, j - 1)
}

// Adds to what is reached where the controller can stay. Whether that adds a position.
fn widen_by(g: Game, s: &mut [u64], goal: OutSet, wait: InSet) -> bool
    requires { Fits g × (barred_sets ≤ set_count s.old) × Within g (sets_in s.old) }
    ensures { WidenedBy g (bits_of goal.0) (bits_of wait.0) (sets_in s.old) (sets_in s.new) result }
{
    barred_stay::stay(g, s, goal, wait);
    barred_rows::unite(s, g.input.states, STAYING, REACHED)
}

// Adds to what is reached where the controller can stay as long as one of the sets is not visited; it ends with the first that adds a position. The sets of
// the requirement come before the inputs of every play: where one of them stays away, it adds at once what those add turn by turn.
fn widen(g: Game, s: &mut [u64], goal: OutSet) -> bool
    requires { Fits g × (barred_sets ≤ set_count s.old) × Within g (sets_in s.old) }
    ensures { Widened g (bits_of goal.0) 0 (sets_in s.old) (sets_in s.new) result }
{
    let q = g.requirements[0];
    for j in (0..q.assumed + 1).rev() {
        let wait = waited(g, j);
        if widen_by(g, s, goal, wait) {
            return true;
        }
    }
    false
}

// Finds what is reached: where the controller comes to the goal, or some set of the requirement stays away. It is grown step by step as far as that goes;
// only then are the sets tried.
fn reach(g: Game, s: &mut [u64], goal: OutSet)
    requires { Fits g × (barred_sets ≤ set_count s.old) × Within g (sets_in s.old) }
    ensures { ReachFound g (bits_of goal.0) (sets_in s.old) (sets_in s.new) }
{
    barred_rows::empty(s, g.input.states, REACHED);
    barred_grow::grow(g, s, goal);
    while widen(g, s, goal) {
        barred_grow::grow(g, s, goal);
    }
}

// Takes out of what is kept the positions in which the controller cannot go on for ever inside it.
fn trim(g: Game, s: &mut [u64])
    requires { Fits g × (barred_sets ≤ set_count s.old) × Within g (sets_in s.old) }
    ensures { Trimmed g (sets_in s.old) (sets_in s.new) }
{
    let none = sets::empty();
    barred_rows::empty(s, g.input.states, REACHED);
    barred_stay::stay(g, s, OutSet(none), InSet(none));
    barred_rows::copy(s, g.input.states, STAYING, KEPT);
}

// Takes out of what is kept the positions in which the goal is not reached. Whether there were any.
fn settle(g: Game, s: &mut [u64], goal: OutSet) -> bool
    requires { Fits g × (barred_sets ≤ set_count s.old) × Within g (sets_in s.old) }
    ensures { Settled g (bits_of goal.0) (sets_in s.old) (sets_in s.new) result }
{
    reach(g, s, goal);
    if barred_rows::meet(s, g.input.states, REACHED, KEPT) {
        trim(g, s);
        return true;
    }
    false
}

// One pass over the output sets of the requirement. Whether it took a position.
fn pass(g: Game, s: &mut [u64]) -> bool
    requires { Fits g × (barred_sets ≤ set_count s.old) × Within g (sets_in s.old) }
    ensures { Passed g (requirement_at g 0).guaranteed (sets_in s.old) (sets_in s.new) result }
{
    let q = g.requirements[0];
    let mut changed = false;
    for j in 0..q.guaranteed {
        if settle(g, s, q.guarantees[j]) {
            changed = true;
        }
    }
    changed
}

// To begin with everything is kept that is not barred.
fn free(g: Game, bars: &[u64], s: &mut [u64])
    requires { Fits g × (barred_sets ≤ set_count s.old) × (g.input.states ≤ set_count bars.now) }
    ensures { Freed g g.input.states (sets_in bars.now) (sets_in s.old) (sets_in s.new) }
{
    let outputs = sets::below(g.output.states);
    for i in 0..g.input.states {
        sets::put(s, i, sets::difference(outputs, sets::row(bars, i)));
    }
}

// Finds the winning region: row i of what is kept are the outputs that are won with input i and not barred.
pub fn keep(g: Game, bars: &[u64], s: &mut [u64])
    requires { Fits g × (barred_sets ≤ set_count s.old) × (g.input.states ≤ set_count bars.now) }
    ensures { RegionKept g (sets_in bars.now) (sets_in s.old) (sets_in s.new) }
{
    barred_grow::prepare(g, s);
    free(g, bars, s);
    trim(g, s);
    while pass(g, s) {}
}
