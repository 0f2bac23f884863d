// The sizes of an accepted game's tables, and the sets of all its requirements by number, in file order: one requirement after the other.
#![tactic(auto)]

ghost use Rattle.std.specs.Prelude.{◌≡◌, max, ◌≤◌, ◌<◌, length};
ghost use Rattle.bits.specs.Member.{pack};
ghost use Rattle.sets.specs.Words.{bits_of};
ghost use Rattle.game.specs.Access.{requirement_at};
ghost use Rattle.game.specs.Acceptance.{acceptance, accepted};
ghost use Rattle.game_sets.specs.Lists.{Lists, AssumedCounts, GuaranteedCounts, Counts};
ghost use Rattle.play.specs.Play.{separated_of};
ghost use Rattle.theory.specs.Choice.{guarantees, assumptions};
ghost use Rattle.theory.specs.Entries.{controller_counters, environment_counters, controller_entries, environment_entries};
ghost use Rattle.table_sizes.specs.Below.{guarantee_side, assumption_side};
ghost use Rattle.table_goals.specs.Ranges.{met_in};
ghost use Rattle.table_sizes.specs.Numbered.{SetsOf};
ghost use Rattle.table_sizes.specs.Outlined.{Outlined};

use game::{Game, InSet, OutSet};
use table_counters::CounterSet;
use table_goals::GoalRange;

// How many sets each requirement of an accepted game has, and how many counters each of its tables: with the list of the sets (crate game_sets), what a writer
// of a table reads of the game besides its counts and the rows of its graphs.
#[derive(Clone, Copy)]
pub struct Outline {
    pub assumed: [usize; 8],
    pub guaranteed: [usize; 8],
    pub controller: usize,
    pub environment: usize,
}

// How many guarantees all requirements have.
pub fn guarantee_count(g: Game) -> usize
    requires { acceptance g ≡ accepted }
    ensures { result ≡ length (guarantees (separated_of g)) }
{
    let requirements = g.requirements;
    let mut n = 0;
    for r in 0..g.k {
        let q = requirements[r];
        n += q.guaranteed;
    }
    n
}

// How many assumptions all requirements have.
pub fn assumption_count(g: Game) -> usize
    requires { acceptance g ≡ accepted }
    ensures { result ≡ length (assumptions (separated_of g)) }
{
    let requirements = g.requirements;
    let mut n = 0;
    for r in 0..g.k {
        let q = requirements[r];
        n += q.assumed;
    }
    n
}

// The guarantees of requirement r, the first of them number `from` of all. Here and below `l` is the list of the game's sets.
pub fn guarantees_of(
    g: Game,
    given: Outline,
    l: &[u64; game_sets::WORDS],
    r: usize,
    from: usize,
) -> GoalRange
    requires { (g.k ≤ 8) × (r < g.k) × Outlined g given × Lists g l.now }
    ensures { SetsOf guarantee_side (requirement_at g r) from result }
{
    let a = game_sets::guarantee(l, r, 0);
    let b = game_sets::guarantee(l, r, 1);
    let c = game_sets::guarantee(l, r, 2);
    let d = game_sets::guarantee(l, r, 3);
    let w = a.0;
    let x = b.0;
    let y = c.0;
    let z = d.0;
    GoalRange {
        sets: [w, x, y, z],
        count: given.guaranteed[r],
        from,
    }
}

// The numbers of the guarantees that have a state in x.
pub fn guarantees_met(g: Game, given: Outline, l: &[u64; game_sets::WORDS], x: OutSet) -> CounterSet
    requires { (acceptance g ≡ accepted) × Outlined g given × Lists g l.now }
    ensures { result.0 ≡ pack (length (guarantees (separated_of g))) (met_in (guarantees (separated_of g)) (bits_of x.0)) }
{
    let mut q = table_counters::empty();
    let mut n: usize = 0;
    for r in 0..g.k {
        let s = guarantees_of(g, given, l, r, n);
        q = table_goals::add_met(q, s, x.0);
        n += s.count;
    }
    q
}

// The assumptions of requirement r, the first of them number `from` of all.
pub fn assumptions_of(
    g: Game,
    given: Outline,
    l: &[u64; game_sets::WORDS],
    r: usize,
    from: usize,
) -> GoalRange
    requires { (g.k ≤ 8) × (r < g.k) × Outlined g given × Lists g l.now }
    ensures { SetsOf assumption_side (requirement_at g r) from result }
{
    let a = game_sets::assumption(l, r, 0);
    let b = game_sets::assumption(l, r, 1);
    let c = game_sets::assumption(l, r, 2);
    let d = game_sets::assumption(l, r, 3);
    let w = a.0;
    let x = b.0;
    let y = c.0;
    let z = d.0;
    GoalRange {
        sets: [w, x, y, z],
        count: given.assumed[r],
        from,
    }
}

// The numbers of the assumptions that have a state in x.
pub fn assumptions_met(g: Game, given: Outline, l: &[u64; game_sets::WORDS], x: InSet) -> CounterSet
    requires { (acceptance g ≡ accepted) × Outlined g given × Lists g l.now }
    ensures { result.0 ≡ pack (length (assumptions (separated_of g))) (met_in (assumptions (separated_of g)) (bits_of x.0)) }
{
    let mut q = table_counters::empty();
    let mut n: usize = 0;
    for r in 0..g.k {
        let s = assumptions_of(g, given, l, r, n);
        q = table_goals::add_met(q, s, x.0);
        n += s.count;
    }
    q
}

// A counter runs even where there is no set.
fn at_least_one(n: usize) -> usize
    ensures { result ≡ max 1 n }
{
    if n == 0 {
        return 1;
    }
    n
}

// How many counters the controller's table has.
pub fn controller_counters(g: Game) -> usize
    requires { acceptance g ≡ accepted }
    ensures { result ≡ controller_counters (separated_of g) }
{
    at_least_one(guarantee_count(g))
}

// How many counters the environment's table has.
pub fn environment_counters(g: Game) -> usize
    requires { acceptance g ≡ accepted }
    ensures { result ≡ environment_counters (separated_of g) }
{
    at_least_one(assumption_count(g))
}

// How many guarantees all requirements have, from how many each has.
fn guarantees_counted(g: Game, guaranteed: &[usize; 8]) -> usize
    requires { (acceptance g ≡ accepted) × GuaranteedCounts g guaranteed.now }
    ensures { result ≡ length (guarantees (separated_of g)) }
{
    let mut n = 0;
    for r in 0..g.k {
        n += guaranteed[r];
    }
    n
}

// How many assumptions all requirements have, from how many each has.
fn assumptions_counted(g: Game, assumed: &[usize; 8]) -> usize
    requires { (acceptance g ≡ accepted) × AssumedCounts g assumed.now }
    ensures { result ≡ length (assumptions (separated_of g)) }
{
    let mut n = 0;
    for r in 0..g.k {
        n += assumed[r];
    }
    n
}

// The outline of an accepted game, from how many sets each requirement has.
pub fn outline_of(g: Game, assumed: [usize; 8], guaranteed: [usize; 8]) -> Outline
    requires { (acceptance g ≡ accepted) × Counts g assumed guaranteed }
    ensures { Outlined g result }
{
    let controller = at_least_one(guarantees_counted(g, &guaranteed));
    let environment = at_least_one(assumptions_counted(g, &assumed));
    Outline {
        assumed,
        guaranteed,
        controller,
        environment,
    }
}

// How many entries the controller's table has.
pub fn controller_length(g: Game) -> usize
    requires { acceptance g ≡ accepted }
    ensures { result ≡ length (controller_entries (separated_of g)) }
{
    let inputs = g.input.states;
    inputs + g.output.states * controller_counters(g) * inputs
}

// How many entries the environment's table has.
pub fn environment_length(g: Game) -> usize
    requires { acceptance g ≡ accepted }
    ensures { result ≡ length (environment_entries (separated_of g)) }
{
    let outputs = g.output.states;
    1 + g.input.states * environment_counters(g) * outputs
}

// The same two from the outline, whose counters are known.
pub fn controller_length_of(g: Game, given: Outline) -> usize
    requires { (acceptance g ≡ accepted) × Outlined g given }
    ensures { result ≡ length (controller_entries (separated_of g)) }
{
    let inputs = g.input.states;
    inputs + g.output.states * given.controller * inputs
}

pub fn environment_length_of(g: Game, given: Outline) -> usize
    requires { (acceptance g ≡ accepted) × Outlined g given }
    ensures { result ≡ length (environment_entries (separated_of g)) }
{
    let outputs = g.output.states;
    1 + g.input.states * given.environment * outputs
}
