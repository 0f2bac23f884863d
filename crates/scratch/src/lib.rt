// Scratch: its length, what the solver keeps in it, and how it is left. Where each set stands is known here alone: for n inputs first the inputs'
// closure, then the rows of the winning region, then the outputs' closure.
#![tactic(auto)]

ghost use Rattle.std.specs.Prelude.{◌≡◌, List, ℕ, ◌+◌, ◌≤◌, ◌<◌, length as length_of, drop};
ghost use Rattle.bits.specs.Member.{pack};
ghost use Rattle.sets.specs.Words.{capacity, bits_of, sets_in, set_count};
ghost use Rattle.game.specs.declared.Graph.{Graph};
ghost use Rattle.graph_closure.specs.Sweep.{Given};
ghost use Rattle.graph_components.specs.Component.{Transitive, together, nontrivial_at};
ghost use Rattle.game.specs.Fits.{Fits};
ghost use Rattle.game.specs.declared.Game.{Game};
ghost use Rattle.board.specs.Board.{game_on};
ghost use Rattle.scratch.specs.Scratch.{scratch_sets, scratch_length, Kept};
ghost use Rattle.scratch.specs.Stored.{in_reach_at, row_at, out_reach_at, out_area, reaching_at, won_at, some_won_at, WonKept, Reached, RowPut, NontrivialOf, Laid};
ghost use Rattle.scratch.specs.Areas.{ClosedAt};

use board::Sizes;
use game::{Game, InSet, InState, OutSet, OutState};
use sets::Set;

// How many words no game asks for more than.
pub const MOST: usize = 768;

// The states in nontrivial components of both graphs.
#[derive(Clone, Copy)]
pub struct Nontrivial {
    pub inputs: InSet,
    pub outputs: OutSet,
}

// What is kept from one input to the next, where the outputs that are won with each are read: the homes of the last one in a nontrivial component, the
// outputs that reach them, and the outputs that are won with the last input. The inputs of a component have the same homes, so these are looked for once.
#[derive(Clone, Copy)]
pub struct WonRow {
    pub homes: OutSet,
    pub reaching: OutSet,
    pub row: OutSet,
}

// How many words of scratch a game asks for.
pub fn length(g: Game) -> usize
    requires { (g.input.states ≤ capacity) × (g.output.states ≤ capacity) }
    ensures { result ≡ scratch_length g }
{
    sets::words(2 * g.input.states + g.output.states)
}

// The outputs in the region's row of input j.
pub fn region_row(s: &[u64], n: usize, j: InState) -> OutSet
    requires { (n ≤ capacity) × (j.0 < n) × (n + n ≤ set_count s.now) }
    ensures { bits_of result.0 ≡ row_at (sets_in s.now) n j.0 }
{
    OutSet(sets::row(s, n + j.0))
}

// Writes the region's row of input j.
pub fn put_region_row(s: &mut [u64], n: usize, j: InState, x: OutSet)
    requires { (n ≤ capacity) × (j.0 < n) × (n + n ≤ set_count s.old) }
    ensures { RowPut n j.0 (bits_of x.0) s.old s.new }
{
    sets::put(s, n + j.0, x.0);
}

// The inputs that input i reaches.
pub fn in_reach(s: &[u64], i: InState) -> InSet
    requires { i.0 < set_count s.now }
    ensures { bits_of result.0 ≡ in_reach_at (sets_in s.now) i.0 }
{
    InSet(sets::row(s, i.0))
}

// The outputs that output o reaches.
pub fn out_reach(s: &[u64], n: usize, o: OutState) -> OutSet
    requires { (n ≤ capacity) × (o.0 < capacity) × (scratch_sets n o.0 < set_count s.now) }
    ensures { bits_of result.0 ≡ out_reach_at (sets_in s.now) n o.0 }
{
    OutSet(sets::row(s, n + n + o.0))
}

// The component of input i. `near` are the inputs to try first: its moves serve best.
pub fn in_component(s: &[u64], n: usize, i: InState, near: InSet) -> InSet
    requires { (n ≤ capacity) × (i.0 < n) × (n ≤ set_count s.now) × Transitive (sets_in s.now) n }
    ensures { bits_of result.0 ≡ pack n (together (sets_in s.now) i.0) }
{
    InSet(graph_components::component(s, n, i.0, near.0))
}

// The component of output o, of m outputs. Here too its moves serve best as `near`.
pub fn out_component(s: &[u64], n: usize, m: usize, o: OutState, near: OutSet) -> OutSet
    requires { (n ≤ capacity) × (m ≤ capacity) × (o.0 < m) × (scratch_sets n m ≤ set_count s.now) × Transitive (out_area (sets_in s.now) n) m }
    ensures { bits_of result.0 ≡ pack m (together (out_area (sets_in s.now) n) o.0) }
{
    let at = sets::words(n + n);
    OutSet(graph_components::component(&s[at..], m, o.0, near.0))
}

// The closure of a graph of k states with the rows `moves`, from set number at of s on.
fn close_at(moves: &[u64], k: usize, s: &mut [u64], at: usize)
    requires { (k ≤ capacity) × (at ≤ capacity + capacity) × (at + k ≤ set_count s.old) × (k ≤ set_count moves.now) }
    ensures { (f : Graph) → Given f k moves.now → ClosedAt f at (sets_in s.old) (sets_in s.new) }
{
    let start = sets::words(at);
    graph_closure::close(moves, k, &mut s[start..]);
}

// Works out both closures.
pub fn close(z: Sizes, b: &[u64; board::WORDS], s: &mut [u64])
    ghost g: { Game }
    requires b_value { game_on z b.now ≡ g }
    requires fits { Fits g × (scratch_length g ≤ length_of s.old) }
    ensures { Laid g s.new × Kept g s.old s.new }
{
    let n = z.inputs;
    let m = z.outputs;
    close_at(board::in_rows(b), n, s, 0);
    close_at(board::out_rows(b), m, s, n + n);
}

// The states in nontrivial components of a graph of k states with the rows `moves`, its closure standing from set number at of s on.
fn nontrivial_at(moves: &[u64], k: usize, s: &[u64], at: usize) -> Set
    requires { (k ≤ capacity) × (at ≤ capacity + capacity) × (at + k ≤ set_count s.now) × (k ≤ set_count moves.now) }
    ensures { bits_of result ≡ pack k (nontrivial_at (sets_in moves.now) (drop at (sets_in s.now)) k) }
{
    let start = sets::words(at);
    graph_components::nontrivial(moves, k, &s[start..])
}

// The states in nontrivial components, from both closures.
pub fn nontrivial_states(z: Sizes, b: &[u64; board::WORDS], s: &[u64]) -> Nontrivial
    ghost g: { Game }
    requires b_value { game_on z b.now ≡ g }
    requires fits { Fits g × Laid g s.now }
    ensures { NontrivialOf g result }
{
    let n = z.inputs;
    let m = z.outputs;
    Nontrivial {
        inputs: InSet(nontrivial_at(board::in_rows(b), n, s, 0)),
        outputs: OutSet(nontrivial_at(board::out_rows(b), m, s, n + n)),
    }
}

// Whether (j, o) is won; c are the inputs in nontrivial components.
pub fn won(s: &[u64], n: usize, c: InSet, j: InState, o: OutState) -> bool
    requires { (n ≤ capacity) × (j.0 < n) × (o.0 < capacity) × (scratch_sets n o.0 < set_count s.now) }
    ensures { result ≡ won_at (sets_in s.now) n (bits_of c.0) j.0 o.0 }
{
    let homes = region_row(s, n, j);
    if sets::member(c.0, j.0) {
        let reach = out_reach(s, n, o);
        return sets::meets(homes.0, reach.0);
    }
    sets::member(homes.0, o.0)
}

// Whether some output of y is won with j; z is what the outputs of y reach. In a nontrivial component one is won where z has a home of j.
pub fn some_won(s: &[u64], n: usize, m: usize, c: InSet, j: InState, y: OutSet, z: OutSet) -> bool
    requires { (n ≤ capacity) × (m ≤ capacity) × (j.0 < n) × (n + n ≤ set_count s.now)
        × Reached (sets_in s.now) n m (bits_of y.0) (bits_of z.0) }
    ensures { result ≡ some_won_at (sets_in s.now) n m (bits_of c.0) j.0 (bits_of y.0) }
{
    let homes = region_row(s, n, j);
    if sets::member(c.0, j.0) {
        return sets::meets(homes.0, z.0);
    }
    sets::meets(homes.0, y.0)
}

// The outputs that reach a state of x, of m outputs.
fn reaching(s: &[u64], n: usize, m: usize, x: OutSet) -> OutSet
    requires { (n ≤ capacity) × (m ≤ capacity) × (scratch_sets n m ≤ set_count s.now) }
    ensures { bits_of result.0 ≡ pack m (reaching_at (sets_in s.now) n (bits_of x.0)) }
{
    let mut y = sets::empty();
    for o in 0..m {
        let reach = out_reach(s, n, OutState(o));
        y = sets::insert_if(y, o, sets::meets(x.0, reach.0));
    }
    OutSet(y)
}

// Nothing is kept yet: no output reaches one of no homes.
pub fn won_first() -> WonRow
    ensures { (l : List ℕ) (n m : ℕ) → WonKept l n m result }
{
    let none = OutSet(sets::empty());
    WonRow {
        homes: none,
        reaching: none,
        row: none,
    }
}

// The outputs that are won with input i, of m outputs, k being what is kept of the inputs before. In a trivial component the row is the answer.
pub fn won_next(s: &[u64], n: usize, m: usize, c: InSet, i: InState, k: WonRow) -> WonRow
    requires { (n ≤ capacity) × (m ≤ capacity) × (i.0 < n) × (scratch_sets n m ≤ set_count s.now) × WonKept (sets_in s.now) n m k }
    ensures { WonKept (sets_in s.now) n m result
        × (bits_of result.row.0 ≡ pack m (won_at (sets_in s.now) n (bits_of c.0) i.0)) }
{
    let last = k.homes;
    let reached = k.reaching;
    let homes = region_row(s, n, i);
    if sets::member(c.0, i.0) {
        if sets::same(homes.0, last.0) {
            return WonRow {
                homes: last,
                reaching: reached,
                row: reached,
            };
        }
        let found = reaching(s, n, m, homes);
        return WonRow {
            homes,
            reaching: found,
            row: found,
        };
    }
    WonRow {
        homes: last,
        reaching: reached,
        row: OutSet(sets::intersection(homes.0, sets::below(m))),
    }
}

// The outputs that are won with input i, of m outputs.
pub fn won_outputs(s: &[u64], n: usize, m: usize, c: InSet, i: InState) -> OutSet
    requires { (n ≤ capacity) × (m ≤ capacity) × (i.0 < n) × (scratch_sets n m ≤ set_count s.now) }
    ensures { bits_of result.0 ≡ pack m (won_at (sets_in s.now) n (bits_of c.0) i.0) }
{
    let k = won_next(s, n, m, c, i, won_first());
    k.row
}
