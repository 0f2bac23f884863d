// The components of the input graph and their ranks, found with a few sets and no scratch: backward to a state, then forward from it.
#![tactic(auto)]

ghost use Rattle.std.specs.Prelude.{◌≡◌, true, List, ℕ, ◌+◌, ◌≤◌, ◌<◌, length};
ghost use Rattle.bits.specs.Member.{has, pack};
ghost use Rattle.sets.specs.Words.{capacity, bits_of, sets_in};
ghost use Rattle.graphs.specs.Component.{joined};
ghost use Rattle.game.specs.declared.Game.{Game};
ghost use Rattle.game.specs.Acceptance.{acceptance, accepted};
ghost use Rattle.play.specs.Play.{graph_of, separated_of};
ghost use Rattle.compact.specs.Rank.{leads, component_count};
ghost use Rattle.compact.specs.Moving.{ranks_fit};
ghost use Rattle.graph_ranks.specs.Search.{Narrow, Small, Crossed, Block, Ahead, Swept, Behind, Component, Reduced};
ghost use Rattle.graph_ranks.specs.Ranks.{Put, ranked as holds, RanksWritten};

use game::{Game, InSet, InState};
use sets::Set;

// The states that s reaches by way of states of a set, with s.
fn ahead(moves: &[u64; sets::ROW_WORDS], inside: Set, s: usize) -> Set
    requires { Small (bits_of inside) × (s < capacity) }
    ensures { Ahead (sets_in moves.now) (bits_of inside) s (bits_of result) }
{
    let mut found = sets::insert(sets::empty(), s);
    let mut waiting = found;
    while !sets::is_empty(waiting) {
        let t = sets::lowest(waiting);
        let there = sets::intersection(sets::row_of(moves, t), inside);
        let next = sets::difference(there, found);
        found = sets::union(found, next);
        waiting = sets::union(sets::without_lowest(waiting), next);
    }
    found
}

// What is found, with the states of `left` that have a move to something found. A state that is found is seen by those after it.
fn sweep(moves: &[u64; sets::ROW_WORDS], left: Set, found: Set) -> Set
    requires { Narrow (sets_in moves.now) × Small (bits_of left) }
    ensures { Swept (sets_in moves.now) (bits_of left) (bits_of found) (bits_of result) }
{
    let mut more = found;
    for t in left {
        more = sets::insert_if(more, t, sets::meets(sets::row_of(moves, t), more));
    }
    more
}

// The states of a set that reach s by way of its states, with s.
fn behind(moves: &[u64; sets::ROW_WORDS], inside: Set, s: usize) -> Set
    requires { Narrow (sets_in moves.now) × Small (bits_of inside) × (s < capacity) }
    ensures { Behind (sets_in moves.now) (bits_of inside) s (bits_of result) × Small (bits_of result) }
{
    let mut found = sets::insert(sets::empty(), s);
    let mut more = sweep(moves, inside, found);
    while !sets::same(more, found) {
        found = more;
        more = sweep(moves, sets::difference(inside, found), found);
    }
    found
}

// The component of s among the states of a set: of those that reach s the ones that s reaches. Where s moves to no other of them it is alone, and nothing
// need be searched.
fn among(moves: &[u64; sets::ROW_WORDS], inside: Set, s: usize) -> Set
    requires { Narrow (sets_in moves.now) × Small (bits_of inside) × (has (bits_of inside) s ≡ true) }
    ensures { Component (sets_in moves.now) (bits_of inside) s (bits_of result) }
{
    let alone = sets::insert(sets::empty(), s);
    if !sets::meets(sets::row_of(moves, s), sets::difference(inside, alone)) {
        return alone;
    }
    ahead(moves, behind(moves, inside, s), s)
}

// The places above the lowest state of a row, up to t: place q is crossed by a move from t, which is not below it, to a state below it.
fn span(row: Set, t: usize) -> Set
    requires { t < capacity }
    ensures { (q v : ℕ) → q ≤ t → v < q → has (bits_of row) v ≡ true → has (bits_of result) q ≡ true }
{
    let l = sets::lowest(row);
    if t <= l {
        return sets::empty();
    }
    sets::difference(sets::below(t + 1), sets::below(l + 1))
}

// The places that moves of the n states cross downwards. No component lies on both sides of a place that none crosses.
fn crossed(moves: &[u64; sets::ROW_WORDS], n: usize) -> Set
    requires { n ≤ capacity }
    ensures { Crossed (sets_in moves.now) n (bits_of result) }
{
    let mut found = sets::empty();
    for t in 0..n {
        found = sets::union(found, span(sets::row_of(moves, t), t));
    }
    found
}

// The states of `left` that are below the next place above s which nothing crosses, so that the search for a component need not look past it.
fn block(places: Set, n: usize, left: Set, s: usize) -> Set
    requires { (n ≤ capacity) × (s < n) }
    ensures { (rows : List ℕ) → Crossed rows n (bits_of places) → Block rows n (bits_of left) s (bits_of result) }
{
    let free = sets::difference(sets::below(n), sets::union(places, sets::below(s + 1)));
    if sets::is_empty(free) {
        return left;
    }
    sets::intersection(left, sets::below(sets::lowest(free)))
}

// The component of s among the states of `left`, all below n; the places are those that moves cross.
fn around(moves: &[u64; sets::ROW_WORDS], places: Set, n: usize, left: Set, s: usize) -> Set
    requires { Narrow (sets_in moves.now) × (n ≤ capacity) × ((t : ℕ) → has (bits_of left) t ≡ true → t < n) × (has (bits_of left) s ≡ true)
        × Crossed (sets_in moves.now) n (bits_of places) }
    ensures { Component (sets_in moves.now) (bits_of left) s (bits_of result) }
{
    among(moves, block(places, n, left, s), s)
}

// What is left, without the component of s where s is left.
fn reduced(moves: &[u64; sets::ROW_WORDS], places: Set, n: usize, left: Set, s: usize) -> Set
    requires { Narrow (sets_in moves.now) × (n ≤ capacity) × ((t : ℕ) → has (bits_of left) t ≡ true → t < n) × (s < capacity)
        × Crossed (sets_in moves.now) n (bits_of places) }
    ensures { Reduced (sets_in moves.now) (bits_of left) s (bits_of result) }
{
    if !sets::member(left, s) {
        return left;
    }
    sets::difference(left, around(moves, places, n, left, s))
}

// The places that moves of the inputs cross downwards.
pub fn crossings(g: Game) -> InSet
    requires { acceptance g ≡ accepted }
    ensures { Crossed (sets_in g.input.moves) g.input.states (bits_of result.0) }
{
    InSet(crossed(&g.input.moves, g.input.states))
}

// The component of input j, the smallest of it, of n inputs, whose moves are lent. So nothing below j is looked at, and nothing past the next place above it
// that no move crosses.
pub fn component(moves: &[u64; sets::ROW_WORDS], n: usize, places: InSet, j: InState) -> InSet
    requires { Narrow (sets_in moves.now) × (n ≤ capacity) × (j.0 < n) × Crossed (sets_in moves.now) n (bits_of places.0) }
    ensures { (g : Game) → acceptance g ≡ accepted → moves.now ≡ g.input.moves → n ≡ g.input.states → leads (separated_of g) j.0 ≡ true
        → bits_of result.0 ≡ pack g.input.states (joined (graph_of g.input) j.0) }
{
    let rest = sets::difference(sets::below(n), sets::below(j.0));
    InSet(around(moves, places.0, n, rest, j.0))
}

// The inputs that are the smallest of their components.
pub fn leading(g: Game) -> InSet
    requires { acceptance g ≡ accepted }
    ensures { bits_of result.0 ≡ pack g.input.states (leads (separated_of g)) }
{
    let places = crossed(&g.input.moves, g.input.states);
    let mut leaders = sets::empty();
    let mut left = sets::below(g.input.states);
    for j in 0..g.input.states {
        leaders = sets::insert_if(leaders, j, sets::member(left, j));
        left = reduced(&g.input.moves, places, g.input.states, left, j);
    }
    InSet(leaders)
}

// How many components there are, from the inputs that are the smallest of theirs.
pub fn components(g: Game, leaders: InSet) -> usize
    requires { (acceptance g ≡ accepted) × (bits_of leaders.0 ≡ pack g.input.states (leads (separated_of g))) }
    ensures { result ≡ component_count (separated_of g) }
{
    sets::count(leaders.0)
}

// Writes a rank at n + t for each t of c.
fn put_rank(room: &mut [u16], n: usize, c: Set, rank: u16)
    requires { (t : ℕ) → has (bits_of c) t ≡ true → (t < capacity) × (n + t < length room.old) }
    ensures { Put n (bits_of c) rank room.old room.new }
{
    for t in c {
        room[n + t] = rank;
    }
}

// Whether a rank stands at n + t for each t of c.
fn ranked(table: &[u16], n: usize, c: Set, rank: u16) -> bool
    requires { (t : ℕ) → has (bits_of c) t ≡ true → (t < capacity) × (n + t < length table.now) }
    ensures { result ≡ holds n (bits_of c) rank table.now }
{
    for t in c {
        if table[n + t] != rank {
            return false;
        }
    }
    true
}

// Writes the rank of each input's component behind the starts.
pub fn write_ranks(g: Game, room: &mut [u16])
    requires { (acceptance g ≡ accepted) × (g.input.states + g.input.states ≤ length room.old) }
    ensures { RanksWritten g room.old room.new }
{
    let places = crossed(&g.input.moves, g.input.states);
    let mut left = sets::below(g.input.states);
    let mut rank: u16 = 0;
    for j in 0..g.input.states {
        if sets::member(left, j) {
            let c = around(&g.input.moves, places, g.input.states, left, j);
            put_rank(room, g.input.states, c, rank);
            left = sets::difference(left, c);
            rank += 1;
        }
    }
}

// Whether the ranks behind the starts are the game's.
pub fn ranks_fit(g: Game, table: &[u16]) -> bool
    requires { (acceptance g ≡ accepted) × (g.input.states + g.input.states ≤ length table.now) }
    ensures { result ≡ ranks_fit (separated_of g) table.now }
{
    let places = crossed(&g.input.moves, g.input.states);
    let mut left = sets::below(g.input.states);
    let mut rank: u16 = 0;
    for j in 0..g.input.states {
        if sets::member(left, j) {
            let c = around(&g.input.moves, places, g.input.states, left, j);
            if !ranked(table, g.input.states, c, rank) {
                return false;
            }
            left = sets::difference(left, c);
            rank += 1;
        }
    }
    true
}
