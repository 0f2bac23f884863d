// The print of a catalogue's figures. Each function writes a text at a place of the buffer and answers the place behind it. What lies past the
// buffer's end is left out; that in the program nothing is, `Printed` shows (catalogue/specs).
#![tactic(auto)]

ghost use Rattle.std.specs.Prelude.{◌<◌, ◌≤◌, length};
ghost use Rattle.text_put.specs.Put.{Puts, PutsWithin};
ghost use Rattle.catalogue_lines.specs.Figures.{count_line, pair_text, number_line, number_lines, won_line, figures_print, figures_bytes};

use catalogue_tally::Tally;

// The bytes of a text.
fn put_text(buffer: &mut [u8], at: usize, text: &[u8]) -> usize
    ensures { Puts buffer.old at text.now result buffer.new }
{
    let mut to = at;
    for k in 0..text.len() {
        let b = text[k];
        to = text_put::put_byte(buffer, to, b);
    }
    to
}

// (system N), (environment N), (refused N), by the word w.
fn put_count(buffer: &mut [u8], at: usize, w: usize, n: usize) -> usize
    requires { w < 10 }
    ensures { Puts buffer.old at (count_line w n) result buffer.new }
{
    let a = text_put::put_opening(buffer, at, w);
    let b = text_put::put_number_then(buffer, a, n, b')');
    text_put::put_byte(buffer, b, b'\n')
}

// Two decimal numbers, the closing bracket and the line's end.
fn put_pair(buffer: &mut [u8], at: usize, m: usize, n: usize) -> usize
    ensures { Puts buffer.old at (pair_text m n) result buffer.new }
{
    let a = text_put::put_number_then(buffer, at, m, b' ');
    let b = text_put::put_number_then(buffer, a, n, b')');
    text_put::put_byte(buffer, b, b'\n')
}

// (number R N); no byte where the number was not met.
fn put_number_line(buffer: &mut [u8], at: usize, r: usize, n: usize) -> usize
    ensures { Puts buffer.old at (number_line r n) result buffer.new × (length (number_line r n) ≤ 60) }
{
    if n == 0 {
        return at;
    }
    let a = put_text(buffer, at, b"(number ");
    put_pair(buffer, a, r, n)
}

// (won W P).
fn put_won(buffer: &mut [u8], at: usize, w: usize, p: usize) -> usize
    ensures { Puts buffer.old at (won_line w p) result buffer.new }
{
    let a = put_text(buffer, at, b"(won ");
    put_pair(buffer, a, w, p)
}

// The lines of the numbers that were met.
fn put_numbers(buffer: &mut [u8], at: usize, numbers: &[usize; 256]) -> usize
    ensures { Puts buffer.old at (number_lines 256 0 numbers.now) result buffer.new
        × (length (number_lines 256 0 numbers.now) ≤ 15360) }
{
    let mut to = at;
    for r in 0..256 {
        let n = numbers[r];
        to = put_number_line(buffer, to, r, n);
    }
    to
}

// The print of a tally.
pub fn put_figures(buffer: &mut [u8], t: Tally) -> usize
    ensures { PutsWithin figures_bytes buffer.old (figures_print t) result buffer.new }
{
    let numbers = t.numbers;
    let a = put_count(buffer, 0, 8, t.system);
    let b = put_count(buffer, a, 9, t.environment);
    let c = put_count(buffer, b, 7, t.refused);
    let d = put_numbers(buffer, c, &numbers);
    put_won(buffer, d, t.won, t.positions)
}
