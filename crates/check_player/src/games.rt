// Games for the cases.
use game::{Game, Graph, InSet, OutSet, Requirement};
use sets::Set;

// The set that a word holds, of states below 64.
fn set_of(x: u64) -> Set {
    Set { low: x, high: 0 }
}

// A graph of three states with initial state 0.
fn graph(a: u64, b: u64, c: u64) -> Graph {
    let mut moves = [0u64; sets::ROW_WORDS];
    moves[0] = a;
    moves[2] = b;
    moves[4] = c;
    Graph {
        states: 3,
        initial: set_of(1),
        moves,
    }
}

fn unused() -> Requirement {
    let x = InSet(set_of(0));
    let y = OutSet(set_of(0));
    Requirement {
        assumptions: [x; 4],
        assumed: 0,
        guarantees: [y; 4],
        guaranteed: 0,
    }
}

// If the set recurs in the input, it recurs in the output.
fn echo(set: u64) -> Requirement {
    let mut q = unused();
    q.assumptions[0] = InSet(set_of(set));
    q.assumed = 1;
    q.guarantees[0] = OutSet(set_of(set));
    q.guaranteed = 1;
    q
}

// Inputs 0 to 1 and 2; 1, 2 to themselves. Outputs 0 to 1 and 2; 1 to 0; 2 to itself. If {s} then {s}, s = 0, 1, 2.
pub fn eight() -> Game {
    let mut requirements = [unused(); 8];
    requirements[0] = echo(1);
    requirements[1] = echo(2);
    requirements[2] = echo(4);
    Game {
        input: graph(6, 2, 4),
        output: graph(6, 1, 4),
        k: 3,
        requirements,
    }
}

// The input graph with the fault of refusal code n, 1 to 3.
fn graph_fault(mut h: Graph, n: usize) -> Graph {
    match n {
        1 => h.states = 129,
        2 => h.moves[4] = 8,
        3 => h.initial = set_of(0),
        _ => (),
    }
    h
}

// The game with the fault of refusal code n, 1 to 7; 4 is no fault.
pub fn fault(mut g: Game, n: usize) -> Game {
    let h = g.input;
    g.input = graph_fault(h, n);
    if n == 5 {
        g.k = 9;
    }
    if n == 6 {
        let mut q = g.requirements[0];
        q.guaranteed = 5;
        g.requirements[0] = q;
    }
    if n == 7 {
        let mut q = g.requirements[7];
        q.assumed = 1;
        g.requirements[7] = q;
    }
    g
}

// The game with the faults of all codes from n to 7.
pub fn faults(n: usize) -> Game {
    let mut g = eight();
    for k in n..8 {
        g = fault(g, k);
    }
    g
}

// The game with no move from input 1.
pub fn stuck_input(mut g: Game) -> Game {
    let mut h = g.input;
    h.moves[2] = 0;
    g.input = h;
    g
}

// The game with no move from output 1.
pub fn stuck_output(mut g: Game) -> Game {
    let mut h = g.output;
    h.moves[2] = 0;
    g.output = h;
    g
}
