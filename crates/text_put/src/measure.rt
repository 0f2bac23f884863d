// How long the text of a game is. A number's digits and a set's members are counted, and nothing is written.
ghost use Rattle.std.specs.Prelude.{◌≡◌, List, true, ℕ, ◌<◌, ◌≤◌, length};
ghost use Rattle.sets.specs.Words.{capacity, bits_of, sets_in};
ghost use Rattle.text_grammar.specs.Number.{decimal};
ghost use Rattle.text_shape.specs.Text.{PlainGraph, items, bracket, set_text, sets_text, header_line, state_line, state_lines};
ghost use Rattle.text_shape.specs.Text.{in_words, out_words, requirement_line, requirement_lines, game_text};
ghost use Rattle.text_shape.specs.Shape.{opening};
ghost use Rattle.text_put.specs.Put.{Few, Writable};

use game::{Game, Requirement};
use sets::Set;
use text_shape::words;

// How many digits v has.
fn digits(v: usize) -> usize
    requires { v < 1000 }
    ensures { result ≡ length (decimal v) }
{
    if v < 10 {
        return 1;
    }
    if v < 100 {
        return 2;
    }
    3
}

// The length of items in brackets, where n is that of the items with a blank before each. The first has none.
fn bracketed(n: usize) -> usize
    requires { n < 65536 }
    ensures { (ws : List (List ℕ)) → n ≡ length (items true ws) → result ≡ length (bracket ws) }
{
    if n == 0 {
        return 2;
    }
    n + 1
}

// Of a set: a blank and a digit for each member, a second digit for those from 10 on, a third for those from 100 on.
fn set_length(x: Set) -> usize
    ensures { result ≡ length (set_text (bits_of x)) }
{
    let tens = sets::difference(x, sets::below(10));
    let hundreds = sets::difference(x, sets::below(100));
    bracketed(2 * sets::count(x) + sets::count(tens) + sets::count(hundreds))
}

// Of the opening bracket, the word w and a blank.
fn opening_length(w: usize) -> usize
    requires { w < 10 }
    ensures { result ≡ length (opening w) }
{
    words::letters(w) + 2
}

// Of the line (game I O K).
fn header_length(i: usize, o: usize, k: usize) -> usize
    requires { (i < 1000) × (o < 1000) × (k < 1000) }
    ensures { result ≡ length (header_line i o k) }
{
    opening_length(0) + digits(i) + digits(o) + digits(k) + 4
}

// Of the line of state s, whose moves are x, by the word w. Its flag is one digit.
fn state_length(w: usize, s: usize, x: Set) -> usize
    requires { (w < 10) × (s < 1000) }
    ensures { (f : ℕ) → f < 10 → result ≡ length (state_line w s f (bits_of x)) }
{
    opening_length(w) + digits(s) + set_length(x) + 5
}

// Of the lines of the n states of a graph with these rows, by the word w.
fn states_length(w: usize, n: usize, rows: &[u64; sets::ROW_WORDS]) -> usize
    requires { (w < 10) × (n ≤ capacity) }
    ensures { (h : PlainGraph) → h.moves ≡ sets_in rows.now → result ≡ length (state_lines w n 0 h) }
{
    let mut to: usize = 0;
    for s in 0..n {
        to += state_length(w, s, sets::row_of(rows, s));
    }
    to
}

// Of the list of a requirement's assumptions.
fn assumptions_length(q: Requirement) -> usize
    requires { q.assumed ≤ 4 }
    ensures { result ≡ length (sets_text q.assumed (in_words q.assumptions)) }
{
    let n = q.assumed;
    let mut to: usize = 0;
    for j in 0..n {
        let x = q.assumptions[j];
        to += 1 + set_length(x.0);
    }
    bracketed(to)
}

// Of the list of a requirement's guarantees.
fn guarantees_length(q: Requirement) -> usize
    requires { q.guaranteed ≤ 4 }
    ensures { result ≡ length (sets_text q.guaranteed (out_words q.guarantees)) }
{
    let n = q.guaranteed;
    let mut to: usize = 0;
    for j in 0..n {
        let x = q.guarantees[j];
        to += 1 + set_length(x.0);
    }
    bracketed(to)
}

// Of the line of a requirement.
fn requirement_length(q: Requirement) -> usize
    requires { Few q }
    ensures { result ≡ length (requirement_line q) }
{
    opening_length(3) + assumptions_length(q) + guarantees_length(q) + 3
}

// Of the lines of a game's requirements.
fn requirements_length(g: Game) -> usize
    requires { Writable g }
    ensures { result ≡ length (requirement_lines g.k 0 g.requirements) }
{
    let k = g.k;
    let mut to: usize = 0;
    for r in 0..k {
        let q = g.requirements[r];
        to += requirement_length(q);
    }
    to
}

// Of the text of a game.
pub fn game_length(g: Game) -> usize
    requires { Writable g }
    ensures { result ≡ length (game_text g) }
{
    let lines = states_length(1, g.input.states, &g.input.moves)
        + states_length(2, g.output.states, &g.output.moves);
    header_length(g.input.states, g.output.states, g.k) + lines + requirements_length(g)
}
