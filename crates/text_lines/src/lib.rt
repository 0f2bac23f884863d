// Lines of a text, read from a place on.
#![tactic(auto)]

ghost use Rattle.std.specs.Prelude.{◌≡◌, [], ◌∷◌, ◌+◌, ◌<◌};
ghost use Rattle.text_grammar.specs.Marks.{newline, close_bracket};
ghost use Rattle.text_grammar.specs.Format.{run, chars};
ghost use Rattle.text_grammar.specs.Place.{bytes};
ghost use Rattle.text_shape.specs.Shape.{opening, outputs_format, header_format, row_format, state_format};
ghost use Rattle.text_pieces.specs.Pieces.{step_of};
ghost use Rattle.text_lines.specs.Lines.{header_of, state_of};

use sets::Set;
use text_pieces::{Fault, Found};
use text_shape::words;

// The counts of the header.
#[derive(Clone, Copy)]
pub struct Header {
    pub inputs: usize,
    pub outputs: usize,
    pub k: usize,
}

// A state's flag and moves.
#[derive(Clone, Copy)]
pub struct Row {
    pub initial: usize,
    pub moves: Set,
}

// The opening bracket, the word w and a blank, at place i: the place behind them.
pub fn opening_at(s: &[u8], i: usize, w: usize) -> Result<usize, Fault>
    requires { w < 10 }
    ensures { result ≡ step_of (run (chars (opening w)) (bytes s.now) i) }
{
    let n = words::letters(w) + 2;
    let mut at = i;
    for k in 0..n {
        let b = words::opening_byte(w, k);
        if text_pieces::byte_at(s, at) != b as usize {
            return Err(Fault { at });
        }
        at += 1;
    }
    Ok(at)
}

// The closing bracket and the line's end, at place i: the place behind them.
pub fn end_at(s: &[u8], i: usize) -> Result<usize, Fault>
    ensures { result ≡ step_of (run (chars (close_bracket ∷ newline ∷ [])) (bytes s.now) i) }
{
    if text_pieces::byte_at(s, i) != text_pieces::CLOSE {
        return Err(Fault { at: i });
    }
    let j = i + 1;
    if text_pieces::byte_at(s, j) != text_pieces::LINE_END {
        return Err(Fault { at: j });
    }
    Ok(j + 1)
}

// The header's line at place i, behind the count a of inputs.
fn outputs_at(s: &[u8], i: usize, a: usize) -> Result<Found<Header>, Fault>
    ensures { result ≡ header_of (run (outputs_format a) (bytes s.now) i) }
{
    let o = text_pieces::number_then(s, i, 1, sets::CAPACITY, b' ')?;
    let k = text_pieces::number_then(s, o.end, 0, 8, b')')?;
    if text_pieces::byte_at(s, k.end) != text_pieces::LINE_END {
        return Err(Fault { at: k.end });
    }
    Ok(Found {
        value: Header {
            inputs: a,
            outputs: o.value,
            k: k.value,
        },
        end: k.end + 1,
    })
}

// The header's line.
pub fn header_at(s: &[u8], i: usize) -> Result<Found<Header>, Fault>
    ensures { result ≡ header_of (run header_format (bytes s.now) i) }
{
    let j = opening_at(s, i, 0)?;
    let a = text_pieces::number_then(s, j, 1, sets::CAPACITY, b' ')?;
    outputs_at(s, a.end, a.value)
}

// A state's line at place i, behind its number.
fn row_at(s: &[u8], i: usize) -> Result<Found<Row>, Fault>
    ensures { result ≡ state_of (run row_format (bytes s.now) i) }
{
    let f = text_pieces::number_then(s, i, 0, 1, b' ')?;
    let x = text_pieces::set_at(s, f.end)?;
    let end = end_at(s, x.end)?;
    Ok(Found {
        value: Row {
            initial: f.value,
            moves: x.value,
        },
        end,
    })
}

// The line of the given state at place i, by the word w.
pub fn state_at(s: &[u8], i: usize, w: usize, state: usize) -> Result<Found<Row>, Fault>
    requires { (w < 10) × (state < 1000) }
    ensures { result ≡ state_of (run (state_format w state) (bytes s.now) i) }
{
    let j = opening_at(s, i, w)?;
    let n = text_pieces::number_then(s, j, state, state, b' ')?;
    row_at(s, n.end)
}
