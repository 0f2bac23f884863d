// A whole text: its graphs, its requirements, the game.
ghost use Rattle.std.specs.Prelude.{◌≡◌, ◌+◌, ◌<◌, ◌≤◌, replicate};
ghost use Rattle.sets.specs.Words.{capacity, bits_of, set_of};
ghost use Rattle.text_grammar.specs.Format.{run};
ghost use Rattle.text_grammar.specs.Place.{bytes};
ghost use Rattle.text_shape.specs.Text.{record_of, empty_requirement, empty_game};
ghost use Rattle.text_shape.specs.Shape.{mark, states_format, empty_graph, requirements_format, output_format, game_format};
ghost use Rattle.text_scan.specs.Scan.{graph_of, requirements_of, game_of};

use crate::set_lists;
use game::{Game, Graph, Requirement};
use sets::Set;
use text_pieces::{Fault, Found};

fn empty_graph(n: usize) -> Graph
    ensures { result ≡ record_of (empty_graph n) }
{
    let none = sets::empty();
    Graph {
        states: n,
        initial: none,
        moves: [0u64; sets::ROW_WORDS],
    }
}

// The set x, with the state t where f is 1.
fn marked(x: Set, t: usize, f: usize) -> Set
    requires { t < capacity }
    ensures { (bits_of result ≡ mark (bits_of x) t f) × (set_of (bits_of result) ≡ result) }
{
    if f == 1 {
        return sets::insert(x, t);
    }
    x
}

// The lines of the n states of a graph at place i, by the word w.
fn graph_at(s: &[u8], i: usize, w: usize, n: usize) -> Result<Found<Graph>, Fault>
    requires { (w < 10) × (n ≤ capacity) }
    ensures { result ≡ graph_of (run (states_format w n 0 (empty_graph n)) (bytes s.now) i) }
{
    let mut moves = [0u64; sets::ROW_WORDS];
    let mut initial = sets::empty();
    let mut at = i;
    for t in 0..n {
        let q = text_lines::state_at(s, at, w, t)?;
        sets::put_of(&mut moves, t, q.value.moves);
        initial = marked(initial, t, q.value.initial);
        at = q.end;
    }
    let value = Graph {
        states: n,
        initial,
        moves,
    };
    Ok(Found { value, end: at })
}

fn no_requirements() -> [Requirement; 8]
    ensures { result ≡ replicate 8 empty_requirement }
{
    let q = set_lists::empty_requirement();
    [q; 8]
}

// The lines of the k requirements at place i.
fn requirements_at(s: &[u8], i: usize, k: usize) -> Result<Found<[Requirement; 8]>, Fault>
    requires { k ≤ 8 }
    ensures { result ≡ requirements_of (run (requirements_format k 0 (replicate 8 empty_requirement)) (bytes s.now) i) }
{
    let mut qs = no_requirements();
    let mut at = i;
    for t in 0..k {
        let q = set_lists::requirement_at(s, at)?;
        qs[t] = q.value;
        at = q.end;
    }
    Ok(Found { value: qs, end: at })
}

// A game without states.
pub fn empty_game() -> Game
    ensures { result ≡ empty_game }
{
    let h = empty_graph(0);
    let qs = no_requirements();
    Game {
        input: h,
        output: h,
        k: 0,
        requirements: qs,
    }
}

// The text at place i behind the header, with the output graph and the requirements still to come.
fn outputs_at(s: &[u8], i: usize, a: Graph, outputs: usize, k: usize) -> Result<Found<Game>, Fault>
    requires { (outputs ≤ capacity) × (k ≤ 8) }
    ensures { result ≡ game_of (run (output_format a outputs k) (bytes s.now) i) }
{
    let b = graph_at(s, i, 2, outputs)?;
    let qs = requirements_at(s, b.end, k)?;
    let requirements = qs.value;
    let value = Game {
        input: a,
        output: b.value,
        k,
        requirements,
    };
    Ok(Found { value, end: qs.end })
}

// The whole text.
pub fn game_at(s: &[u8]) -> Result<Found<Game>, Fault>
    ensures { result ≡ game_of (run game_format (bytes s.now) 0) }
{
    let h = text_lines::header_at(s, 0)?;
    let a = graph_at(s, h.end, 1, h.value.inputs)?;
    outputs_at(s, a.end, a.value, h.value.outputs, h.value.k)
}
