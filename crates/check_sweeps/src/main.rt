// Prints how many sweeps the closure of some graphs takes, and holds every graph of up to 3 states to "in no graph more sweeps than states".
#![tactic(auto)]

ghost use Rattle.std.specs.Prelude.{◌≡◌, ◌≤◌, ◌<◌};
ghost use Rattle.sets.specs.Words.{capacity};

use game::Graph;
use sets::Set;

// Where the lines go.
const STDOUT_FILENO: i32 = 1;

#[derive(Clone, Copy)]
enum Shape {
    // Each state moves to itself.
    Loops,
    // Each state moves to the next, the last to itself.
    Chain,
    // Each state moves to the one before, the first to itself.
    FallingChain,
    // Each state moves to the next, the last to the first.
    Cycle,
    // State s moves to s + 27, going round at the count.
    Strides,
    // A cycle of the first half of the states, a cycle of the others, and a move from the one to the other.
    TwoCycles,
    // Each state moves to all of them.
    Full,
}

// The set of one state.
fn one(s: usize) -> Set
    requires { s < capacity }
{
    sets::insert(sets::empty(), s)
}

// Row s of a graph of n states.
fn row(shape: Shape, n: usize, s: usize) -> Set
    requires { (s < n) × (n ≤ capacity) }
{
    match shape {
        Shape::Loops => one(s),
        Shape::Chain => if s + 1 < n { one(s + 1) } else { one(s) },
        Shape::FallingChain => if s > 0 { one(s - 1) } else { one(0) },
        Shape::Cycle => if s + 1 < n { one(s + 1) } else { one(0) },
        Shape::Strides => if s + 27 < n {
            one(s + 27)
        } else {
            one(s + 27 - n)
        },
        Shape::TwoCycles => if s + 1 == n / 2 {
            sets::insert(one(0), n / 2)
        } else if s + 1 == n {
            one(n / 2)
        } else {
            one(s + 1)
        },
        Shape::Full => sets::below(n),
    }
}

fn graph(shape: Shape, n: usize) -> Graph
    requires { n ≤ capacity }
    ensures { result.states ≡ n }
{
    let mut moves = [0u64; sets::ROW_WORDS];
    for s in 0..n {
        let x = row(shape, n, s);
        sets::put_of(&mut moves, s, x);
    }
    Graph {
        states: n,
        initial: sets::below(1),
        moves,
    }
}

// A line: the name and the count of sweeps.
fn report(name: &[u8], shape: Shape, n: usize)
    requires { n ≤ capacity }
{
    let mut rows = [0u64; sets::ROW_WORDS];
    let h = graph(shape, n);
    let sweeps = graph_closure::close(&h.moves, n, &mut rows);
    io::write_all(STDOUT_FILENO, name);
    io::print_decimal(STDOUT_FILENO, sweeps as u64);
    io::write_all(STDOUT_FILENO, b"\n");
}

// The graph of n states whose rows are the digits of the code to the base of 2 to the power n, row 0 lowest.
fn coded(n: usize, base: u64, code: u64) -> Graph
    requires { (n ≤ capacity) × (1 ≤ base) }
    ensures { result.states ≡ n }
{
    let mut moves = [0u64; sets::ROW_WORDS];
    let mut rest = code;
    for s in 0..n {
        moves[2 * s] = rest % base;
        rest /= base;
    }
    Graph {
        states: n,
        initial: sets::below(1),
        moves,
    }
}

// Whether that graph takes no more sweeps than it has states.
fn bounded(n: usize, base: u64, code: u64) -> bool
    requires { (n ≤ capacity) × (1 ≤ base) }
{
    let mut rows = [0u64; sets::ROW_WORDS];
    let h = coded(n, base, code);
    graph_closure::close(&h.moves, n, &mut rows) <= n
}

// How many of the graphs with codes below some number do.
fn count_bounded(n: usize, base: u64, codes: u64) -> u64
    requires { (n ≤ capacity) × (1 ≤ base) }
{
    let mut kept = 0u64;
    for code in 0u64..codes {
        if bounded(n, base, code) {
            kept += 1;
        }
    }
    kept
}

// A line: how many graphs of n states there are, and how many of them take no more sweeps than states.
fn report_all(name: &[u8], n: usize, base: u64, codes: u64)
    requires { (n ≤ capacity) × (1 ≤ base) }
{
    let kept = count_bounded(n, base, codes);
    io::write_all(STDOUT_FILENO, name);
    io::print_decimal(STDOUT_FILENO, codes);
    io::write_all(STDOUT_FILENO, b", no more sweeps than states: ");
    io::print_decimal(STDOUT_FILENO, kept);
    io::write_all(STDOUT_FILENO, b"\n");
}

fn main() {
    report(b"one state, to itself: ", Shape::Loops, 1);
    report(b"two states, each to itself: ", Shape::Loops, 2);
    report(b"64 states, each to itself: ", Shape::Loops, 64);
    report(b"a chain of 64: ", Shape::Chain, 64);
    report(b"a falling chain of 64: ", Shape::FallingChain, 64);
    report(b"a cycle of 64: ", Shape::Cycle, 64);
    report(b"a cycle of 64 in strides: ", Shape::Strides, 64);
    report(b"two cycles of 32, joined: ", Shape::TwoCycles, 64);
    report(b"64 states, each to all: ", Shape::Full, 64);
    report(b"128 states, each to itself: ", Shape::Loops, 128);
    report(b"a chain of 128: ", Shape::Chain, 128);
    report(b"a falling chain of 128: ", Shape::FallingChain, 128);
    report(b"a cycle of 128: ", Shape::Cycle, 128);
    report(b"a cycle of 128 in strides: ", Shape::Strides, 128);
    report(b"two cycles of 64, joined: ", Shape::TwoCycles, 128);
    report(b"128 states, each to all: ", Shape::Full, 128);
    report_all(b"graphs of 1 state: ", 1, 2, 2);
    report_all(b"graphs of 2 states: ", 2, 4, 16);
    report_all(b"graphs of 3 states: ", 3, 8, 512);
}
