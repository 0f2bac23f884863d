// Games for the cases: a plain one, and functions that each change one thing in a game.
ghost use Rattle.std.specs.Prelude.{◌<◌};
ghost use Rattle.sets.specs.Words.{capacity};

use game::{Game, Graph, InSet, OutSet, Requirement};
use sets::Set;

// The set that a word holds, of states below 64.
fn set(x: u64) -> Set {
    Set { low: x, high: 0 }
}

// Every state moves to state 0, which is the initial one.
fn graph(states: usize) -> Graph {
    let mut moves = [0u64; sets::ROW_WORDS];
    for s in 0..sets::CAPACITY {
        if s < states {
            moves[2 * s] = 1;
        }
    }
    Graph {
        states,
        initial: set(1),
        moves,
    }
}

fn unused() -> Requirement {
    let x = InSet(set(0));
    let y = OutSet(set(0));
    Requirement {
        assumptions: [x; 4],
        assumed: 0,
        guarantees: [y; 4],
        guaranteed: 0,
    }
}

// Two graphs with so many states and no requirement.
pub fn plain(inputs: usize, outputs: usize) -> Game {
    Game {
        input: graph(inputs),
        output: graph(outputs),
        k: 0,
        requirements: [unused(); 8],
    }
}

pub fn in_initial(mut g: Game, x: u64) -> Game {
    let mut h = g.input;
    h.initial = set(x);
    g.input = h;
    g
}

pub fn out_initial(mut g: Game, x: u64) -> Game {
    let mut h = g.output;
    h.initial = set(x);
    g.output = h;
    g
}

// State 0 and states from 64 on: those of a high word.
fn with_high(x: u64) -> Set {
    Set { low: 1, high: x }
}

pub fn out_initial_high(mut g: Game, x: u64) -> Game {
    let mut h = g.output;
    h.initial = with_high(x);
    g.output = h;
    g
}

pub fn in_row(mut g: Game, s: usize, x: u64) -> Game
    requires { s < capacity }
{
    let mut h = g.input;
    h.moves[2 * s] = x;
    g.input = h;
    g
}

pub fn out_row(mut g: Game, s: usize, x: u64) -> Game
    requires { s < capacity }
{
    let mut h = g.output;
    h.moves[2 * s] = x;
    g.output = h;
    g
}

// The high word of the moves from s.
pub fn out_row_high(mut g: Game, s: usize, x: u64) -> Game
    requires { s < capacity }
{
    let mut h = g.output;
    h.moves[2 * s + 1] = x;
    g.output = h;
    g
}

pub fn used(mut g: Game, k: usize) -> Game {
    g.k = k;
    g
}

// The lengths of the requirement at place r.
pub fn lengths(mut g: Game, r: usize, a: usize, b: usize) -> Game
    requires { r < 8 }
{
    let mut q = g.requirements[r];
    q.assumed = a;
    q.guaranteed = b;
    g.requirements[r] = q;
    g
}

// Assumption j of the first requirement.
pub fn assumption(mut g: Game, j: usize, x: u64) -> Game
    requires { j < 4 }
{
    let mut q = g.requirements[0];
    q.assumptions[j] = InSet(set(x));
    g.requirements[0] = q;
    g
}

// Guarantee j of the first requirement.
pub fn guarantee(mut g: Game, j: usize, x: u64) -> Game
    requires { j < 4 }
{
    let mut q = g.requirements[0];
    q.guarantees[j] = OutSet(set(x));
    g.requirements[0] = q;
    g
}
