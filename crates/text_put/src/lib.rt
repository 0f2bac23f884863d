// The text of a game, written piece by piece. Each function writes a text at a place of the buffer and answers the place behind it.
// What lies past the buffer's end is left out, and the place stays there: so nothing is asked of a text's length.
#![tactic(auto)]

ghost use Rattle.std.specs.Prelude.{◌≡◌, [], ◌∷◌, ◌++◌, ◌+◌, ◌<◌, ◌≤◌, length};
ghost use Rattle.sets.specs.Words.{capacity, bits_of};
ghost use Rattle.text_grammar.specs.Marks.{newline, close_bracket, digit_zero};
ghost use Rattle.text_grammar.specs.Number.{decimal};
ghost use Rattle.text_shape.specs.Text.{plain, gap_text, set_text, sets_text, header_line, state_line, state_lines};
ghost use Rattle.text_shape.specs.Text.{in_words, out_words, requirement_line, requirement_lines, game_text};
ghost use Rattle.finite.specs.Bounded.{one};
ghost use Rattle.bits.specs.Member.{has};
ghost use Rattle.text_shape.specs.Shape.{opening};
ghost use Rattle.text_put.specs.Put.{Puts, Few, Writable};

use game::{Game, Graph, Requirement};
use sets::Set;
use text_shape::words;

pub mod measure; // how long the text is

const ZERO: usize = b'0' as usize;

// One byte.
pub fn put_byte(buffer: &mut [u8], at: usize, b: u8) -> usize
    ensures { Puts buffer.old at (b ∷ []) result buffer.new }
{
    if at < buffer.len() {
        buffer[at] = b;
        return at + 1;
    }
    at
}

// A digit.
fn put_digit(buffer: &mut [u8], at: usize, v: usize) -> usize
    requires { v < 10 }
    ensures { Puts buffer.old at ((digit_zero + v) ∷ []) result buffer.new }
{
    put_byte(buffer, at, (ZERO + v) as u8)
}

// A decimal number of two digits.
fn put_pair(buffer: &mut [u8], at: usize, v: usize) -> usize
    requires { (10 ≤ v) × (v < 100) }
    ensures { Puts buffer.old at (decimal v) result buffer.new }
{
    let m = put_digit(buffer, at, v / 10);
    put_digit(buffer, m, v % 10)
}

// A decimal number of up to three digits: a state, a count and nearly every number that is written.
fn put_small(buffer: &mut [u8], at: usize, v: usize) -> usize
    requires { v < 1000 }
    ensures { Puts buffer.old at (decimal v) result buffer.new }
{
    if v < 10 {
        return put_digit(buffer, at, v);
    }
    if v < 100 {
        return put_pair(buffer, at, v);
    }
    let m = put_pair(buffer, at, v / 10);
    put_digit(buffer, m, v % 10)
}

// A decimal number.
pub fn put_number(buffer: &mut [u8], at: usize, v: usize) -> usize
    ensures { Puts buffer.old at (decimal v) result buffer.new }
{
    if v < 1000 {
        return put_small(buffer, at, v);
    }
    let m = put_number(buffer, at, v / 10);
    put_digit(buffer, m, v % 10)
}

// A decimal number and the byte b.
pub fn put_number_then(buffer: &mut [u8], at: usize, v: usize, b: u8) -> usize
    ensures { Puts buffer.old at (decimal v ++ b ∷ []) result buffer.new }
{
    let m = put_number(buffer, at, v);
    put_byte(buffer, m, b)
}

// The opening bracket, the word w and a blank.
pub fn put_opening(buffer: &mut [u8], at: usize, w: usize) -> usize
    requires { w < 10 }
    ensures { Puts buffer.old at (opening w) result buffer.new }
{
    let n = words::letters(w) + 2;
    let mut to = at;
    for k in 0..n {
        let b = words::opening_byte(w, k);
        to = put_byte(buffer, to, b);
    }
    to
}

// The closing bracket and the line's end.
pub fn put_end(buffer: &mut [u8], at: usize) -> usize
    ensures { Puts buffer.old at (close_bracket ∷ newline ∷ []) result buffer.new }
{
    let m = put_byte(buffer, at, b')');
    put_byte(buffer, m, b'\n')
}

// A blank where gap holds, and the member v.
fn put_member(buffer: &mut [u8], at: usize, gap: bool, v: usize) -> usize
    requires { v < capacity }
    ensures { Puts buffer.old at (gap_text gap ++ decimal v) result buffer.new }
{
    if gap {
        let m = put_byte(buffer, at, b' ');
        return put_small(buffer, m, v);
    }
    put_small(buffer, at, v)
}

// A set.
pub fn put_set(buffer: &mut [u8], at: usize, x: Set) -> usize
    ensures { Puts buffer.old at (set_text (bits_of x)) result buffer.new }
{
    let mut to = put_byte(buffer, at, b'(');
    let mut gap = false;
    for s in x {
        to = put_member(buffer, to, gap, s);
        gap = true;
    }
    put_byte(buffer, to, b')')
}

// A blank where gap holds, and a set.
fn put_item(buffer: &mut [u8], at: usize, gap: bool, x: Set) -> usize
    ensures { Puts buffer.old at (gap_text gap ++ set_text (bits_of x)) result buffer.new }
{
    if gap {
        let m = put_byte(buffer, at, b' ');
        return put_set(buffer, m, x);
    }
    put_set(buffer, at, x)
}

// The list of a requirement's assumptions.
fn put_assumptions(buffer: &mut [u8], at: usize, q: Requirement) -> usize
    requires { q.assumed ≤ 4 }
    ensures { Puts buffer.old at (sets_text q.assumed (in_words q.assumptions)) result buffer.new }
{
    let n = q.assumed;
    let mut to = put_byte(buffer, at, b'(');
    let mut gap = false;
    for j in 0..n {
        let x = q.assumptions[j];
        to = put_item(buffer, to, gap, x.0);
        gap = true;
    }
    put_byte(buffer, to, b')')
}

// The list of a requirement's guarantees.
fn put_guarantees(buffer: &mut [u8], at: usize, q: Requirement) -> usize
    requires { q.guaranteed ≤ 4 }
    ensures { Puts buffer.old at (sets_text q.guaranteed (out_words q.guarantees)) result buffer.new }
{
    let n = q.guaranteed;
    let mut to = put_byte(buffer, at, b'(');
    let mut gap = false;
    for j in 0..n {
        let x = q.guarantees[j];
        to = put_item(buffer, to, gap, x.0);
        gap = true;
    }
    put_byte(buffer, to, b')')
}

// The line (game I O K).
fn put_header(buffer: &mut [u8], at: usize, i: usize, o: usize, k: usize) -> usize
    ensures { Puts buffer.old at (header_line i o k) result buffer.new }
{
    let a = put_opening(buffer, at, 0);
    let b = put_number_then(buffer, a, i, b' ');
    let c = put_number_then(buffer, b, o, b' ');
    let d = put_number_then(buffer, c, k, b')');
    put_byte(buffer, d, b'\n')
}

// The line of state s, whose flag is f and whose moves are x, by the word w.
fn put_state(buffer: &mut [u8], at: usize, w: usize, s: usize, f: usize, x: Set) -> usize
    requires { w < 10 }
    ensures { Puts buffer.old at (state_line w s f (bits_of x)) result buffer.new }
{
    let a = put_opening(buffer, at, w);
    let b = put_number_then(buffer, a, s, b' ');
    let c = put_number_then(buffer, b, f, b' ');
    let d = put_set(buffer, c, x);
    put_end(buffer, d)
}

// 1 if state s is in x, else 0.
fn flag(x: Set, s: usize) -> usize
    requires { s < capacity }
    ensures { result ≡ one (has (bits_of x) s) }
{
    if sets::member(x, s) {
        return 1;
    }
    0
}

// The lines of a graph's states, by the word w.
fn put_states(buffer: &mut [u8], at: usize, w: usize, h: Graph) -> usize
    requires { (w < 10) × (h.states ≤ capacity) }
    ensures { Puts buffer.old at (state_lines w h.states 0 (plain h)) result buffer.new }
{
    let n = h.states;
    let initial = h.initial;
    let mut to = at;
    for s in 0..n {
        let x = sets::row_of(&h.moves, s);
        let f = flag(initial, s);
        to = put_state(buffer, to, w, s, f, x);
    }
    to
}

// The line of a requirement.
fn put_requirement(buffer: &mut [u8], at: usize, q: Requirement) -> usize
    requires { Few q }
    ensures { Puts buffer.old at (requirement_line q) result buffer.new }
{
    let a = put_opening(buffer, at, 3);
    let b = put_assumptions(buffer, a, q);
    let c = put_byte(buffer, b, b' ');
    let d = put_guarantees(buffer, c, q);
    put_end(buffer, d)
}

// The lines of a game's requirements.
fn put_requirements(buffer: &mut [u8], at: usize, g: Game) -> usize
    requires { Writable g }
    ensures { Puts buffer.old at (requirement_lines g.k 0 g.requirements) result buffer.new }
{
    let k = g.k;
    let mut to = at;
    for r in 0..k {
        let q = g.requirements[r];
        to = put_requirement(buffer, to, q);
    }
    to
}

// The text of a game.
pub fn put_game(buffer: &mut [u8], at: usize, g: Game) -> usize
    requires { Writable g }
    ensures { Puts buffer.old at (game_text g) result buffer.new }
{
    let input = g.input;
    let output = g.output;
    let a = put_header(buffer, at, input.states, output.states, g.k);
    let b = put_states(buffer, a, 1, input);
    let c = put_states(buffer, b, 2, output);
    put_requirements(buffer, c, g)
}
