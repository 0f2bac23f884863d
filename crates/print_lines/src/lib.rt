// The lines of an answer: parts of the program `solve`. Each function writes a text at a place of the buffer and answers the place behind it. What
// lies past the buffer's end is left out; that in the program nothing is, `Made` shows (solve/specs). 160 bytes hold every line.
#![tactic(auto)]

ghost use Rattle.std.specs.Prelude.{◌≡◌, ◌+◌, ◌<◌, ◌≤◌, ◌^◌, max, length};
ghost use Rattle.text_shape.specs.Text.{word};
ghost use Rattle.text_put.specs.Put.{Puts};
ghost use Rattle.print_lines.specs.Line.{winner_word, wins_line, start_line, environment_start_line, row_line, step_line, refused_line, misshapen_line};

use table_entries::NONE;
use text_shape::words;

// The letters of the word w.
fn put_word(buffer: &mut [u8], at: usize, w: usize) -> usize
    requires { w < 10 }
    ensures { Puts buffer.old at (word w) result buffer.new }
{
    let n = words::letters(w);
    let mut to = at;
    for k in 0..n {
        let b = words::letter(w, k);
        to = text_put::put_byte(buffer, to, b);
    }
    to
}

// The word of the winner.
fn winner(system: bool) -> usize
    ensures { result ≡ winner_word system }
{
    if system {
        return 8;
    }
    9
}

// (wins system), (wins environment).
pub fn put_wins(buffer: &mut [u8], system: bool) -> usize
    ensures { Puts buffer.old 0 (wins_line system) result buffer.new }
{
    let w = winner(system);
    let a = text_put::put_opening(buffer, 0, 4);
    let b = put_word(buffer, a, w);
    text_put::put_end(buffer, b)
}

// The controller's start for an input; no byte where the entry is none.
pub fn put_start(buffer: &mut [u8], at: usize, input: usize, entry: u16) -> usize
    ensures { Puts buffer.old at (start_line input entry) result buffer.new }
{
    if entry == NONE {
        return at;
    }
    let state = table_entries::state(entry);
    let a = text_put::put_opening(buffer, at, 5);
    let b = text_put::put_number_then(buffer, a, input, b' ');
    let c = text_put::put_number_then(buffer, b, state, b')');
    text_put::put_byte(buffer, c, b'\n')
}

// The environment's start; no byte where the entry is none.
pub fn put_environment_start(buffer: &mut [u8], at: usize, entry: u16) -> usize
    ensures { Puts buffer.old at (environment_start_line entry) result buffer.new }
{
    if entry == NONE {
        return at;
    }
    let state = table_entries::state(entry);
    let a = text_put::put_opening(buffer, at, 5);
    let b = text_put::put_number_then(buffer, a, state, b')');
    text_put::put_byte(buffer, b, b'\n')
}

// (step a g b next-state next-counter).
fn put_row(buffer: &mut [u8], at: usize, a: usize, g: usize, b: usize, entry: u16) -> usize
    ensures { Puts buffer.old at (row_line a g b entry) result buffer.new }
{
    let state = table_entries::state(entry);
    let counter = table_entries::counter(entry);
    let m = text_put::put_opening(buffer, at, 6);
    let n = text_put::put_number_then(buffer, m, a, b' ');
    let o = text_put::put_number_then(buffer, n, g, b' ');
    let p = text_put::put_number_then(buffer, o, b, b' ');
    let q = text_put::put_number_then(buffer, p, state, b' ');
    let r = text_put::put_number_then(buffer, q, counter, b')');
    text_put::put_byte(buffer, r, b'\n')
}

pub fn at_least_one(n: usize) -> usize
    ensures { result ≡ max 1 n }
{
    if n == 0 {
        return 1;
    }
    n
}

// The line of a row, by its number; no byte where the entry is none. `sets` counts the sets that the counter runs over, `last` the
// states that run fastest.
pub fn put_step(
    buffer: &mut [u8],
    at: usize,
    sets: usize,
    last: usize,
    row: usize,
    entry: u16,
) -> usize
    ensures { Puts buffer.old at (step_line sets last row entry) result buffer.new }
{
    if entry == NONE {
        return at;
    }
    let n = at_least_one(last);
    let m = at_least_one(sets);
    put_row(buffer, at, row / n / m, row / n % m, row % n, entry)
}

// (refused N).
pub fn put_refused(buffer: &mut [u8], n: u8) -> usize
    ensures { Puts buffer.old 0 (refused_line n) result buffer.new }
{
    let a = text_put::put_opening(buffer, 0, 7);
    let b = text_put::put_number_then(buffer, a, n as usize, b')');
    text_put::put_byte(buffer, b, b'\n')
}

// (refused 11 P).
pub fn put_misshapen(buffer: &mut [u8], p: usize) -> usize
    ensures { Puts buffer.old 0 (misshapen_line p) result buffer.new }
{
    let a = text_put::put_opening(buffer, 0, 7);
    let b = text_put::put_number_then(buffer, a, 11, b' ');
    let c = text_put::put_number_then(buffer, b, p, b')');
    text_put::put_byte(buffer, c, b'\n')
}
