// Pieces of a text, read from a place on: what stands there and the place behind it, or the place of the fault.
#![tactic(auto)]

ghost use Rattle.std.specs.Prelude.{◌≡◌, ◌+◌, ◌<◌, ◌≤◌};
ghost use Rattle.sets.specs.Words.{capacity, highest, bits_of};
ghost use Rattle.text_grammar.specs.Marks.{close_bracket};
ghost use Rattle.text_grammar.specs.Format.{run, lit};
ghost use Rattle.text_grammar.specs.Format.Format.{done};
ghost use Rattle.text_grammar.specs.Number.{digit, within_range as within, ranges_meet as overlap, digits_begin as fore, extends as further};
ghost use Rattle.text_grammar.specs.Number.{starts as first, number_end, digits_at, number_at};
ghost use Rattle.text_grammar.specs.Place.{bytes};
ghost use Rattle.text_shape.specs.Shape.{more_members, members_format, set_format, num_then};
ghost use Rattle.text_pieces.specs.Pieces.{number_read, set_scan_of, next_member};

use sets::Set;

// The bytes of a text, as `byte_at` answers them.
pub const OPEN: usize = b'(' as usize;

pub const CLOSE: usize = b')' as usize;

pub const BLANK: usize = b' ' as usize;

pub const LINE_END: usize = b'\n' as usize;

const ZERO: usize = b'0' as usize;

const NINE: usize = b'9' as usize;

// A number has at most this many digits behind its first.
const MORE_DIGITS: usize = 2;

// The place of the first fault.
#[derive(Clone, Copy, PartialEq, Eq)]
pub struct Fault {
    pub at: usize,
}

// What stands at a place, and the place behind it.
#[derive(Clone, Copy)]
pub struct Found<T> {
    pub value: T,
    pub end: usize,
}

// The byte at place i; 256 past the end.
pub fn byte_at(s: &[u8], i: usize) -> usize
    ensures { result ≡ bytes s.now i }
{
    if i < s.len() {
        return s[i] as usize;
    }
    256
}

fn is_digit(b: usize) -> bool
    ensures { result ≡ digit b }
{
    ZERO <= b && b <= NINE
}

fn inside(lo: usize, hi: usize, v: usize) -> bool
    ensures { result ≡ within lo hi v }
{
    lo <= v && v <= hi
}

fn meets(lo: usize, hi: usize, a: usize, b: usize) -> bool
    ensures { result ≡ overlap lo hi a b }
{
    if hi < lo {
        return false;
    }
    lo <= b && a <= hi
}

// Whether the digits of v begin those of a number in lo..hi.
fn begins(lo: usize, hi: usize, v: usize) -> bool
    requires { v < 10000 }
    ensures { result ≡ fore lo hi v }
{
    if inside(lo, hi, v) {
        return true;
    }
    if v == 0 {
        return false;
    }
    if meets(lo, hi, 10 * v, 10 * v + 9) {
        return true;
    }
    meets(lo, hi, 100 * v, 100 * v + 99)
}

// Whether the byte b may follow the digits of front.
fn extends(lo: usize, hi: usize, front: usize, b: usize) -> bool
    requires { front < 1000 }
    ensures { result ≡ further lo hi front b }
{
    if front == 0 {
        return false;
    }
    if is_digit(b) {
        return begins(lo, hi, 10 * front + (b - ZERO));
    }
    false
}

fn starts(lo: usize, hi: usize, b: usize) -> bool
    ensures { result ≡ first lo hi b }
{
    if is_digit(b) {
        return begins(lo, hi, b - ZERO);
    }
    false
}

// The number v, whose digits end at place j, if it is in lo..hi.
fn number_end(lo: usize, hi: usize, v: usize, j: usize) -> Result<Found<usize>, Fault>
    ensures { result ≡ number_read (number_end lo hi v j) }
{
    if inside(lo, hi, v) {
        return Ok(Found { value: v, end: j });
    }
    Err(Fault { at: j })
}

// The digits at place i behind those of v, at most two.
fn more_digits(s: &[u8], i: usize, lo: usize, hi: usize, v: usize) -> Result<Found<usize>, Fault>
    requires { (hi < 1000) × (v < 1000) }
    ensures { result ≡ number_read (digits_at 2 lo hi v (bytes s.now) i) }
{
    let mut value = v;
    let mut at = i;
    for _turn in 0..MORE_DIGITS {
        let b = byte_at(s, at);
        if !extends(lo, hi, value, b) {
            break;
        }
        value = 10 * value + (b - ZERO);
        at += 1;
    }
    number_end(lo, hi, value, at)
}

// The number in lo..hi at place i.
pub fn number_at(s: &[u8], i: usize, lo: usize, hi: usize) -> Result<Found<usize>, Fault>
    requires { hi < 1000 }
    ensures { result ≡ number_read (number_at lo hi (bytes s.now) i) }
{
    let b = byte_at(s, i);
    if starts(lo, hi, b) {
        return more_digits(s, i + 1, lo, hi, b - ZERO);
    }
    Err(Fault { at: i })
}

// The number in lo..hi at place i, and the byte b behind it.
pub fn number_then(s: &[u8], i: usize, lo: usize, hi: usize, b: u8) -> Result<Found<usize>, Fault>
    requires { hi < 1000 }
    ensures { result ≡ number_read (run (num_then lo hi b) (bytes s.now) i) }
{
    let n = number_at(s, i, lo, hi)?;
    if byte_at(s, n.end) == b as usize {
        return Ok(Found {
            value: n.value,
            end: n.end + 1,
        });
    }
    Err(Fault { at: n.end })
}

// What stands at place i behind a member: the closing bracket, which is no member, or a member that is at least lo.
fn next_member(s: &[u8], i: usize, lo: usize) -> Result<Option<Found<usize>>, Fault>
    ensures { result ≡ next_member lo (bytes s.now) i }
{
    let b = byte_at(s, i);
    if b == CLOSE {
        return Ok(None);
    }
    if b == BLANK {
        let n = number_at(s, i + 1, lo, sets::HIGHEST)?;
        return Ok(Some(n));
    }
    Err(Fault { at: i })
}

// The set x, closed at place i.
fn closed_set(s: &[u8], i: usize, x: Set) -> Result<Found<Set>, Fault>
    ensures { result ≡ set_scan_of (run (lit close_bracket (done (bits_of x))) (bytes s.now) i) }
{
    if byte_at(s, i) == CLOSE {
        return Ok(Found {
            value: x,
            end: i + 1,
        });
    }
    Err(Fault { at: i })
}

// The members at place i behind those of x, all at least lo.
fn more_members(s: &[u8], i: usize, lo: usize, x: Set) -> Result<Found<Set>, Fault>
    requires { lo ≤ capacity }
    ensures { result ≡ set_scan_of (run (more_members highest lo (bits_of x)) (bytes s.now) i) }
{
    let mut at = i;
    let mut low = lo;
    let mut set = x;
    for _turn in 0..sets::HIGHEST {
        if sets::HIGHEST < low {
            break;
        }
        match next_member(s, at, low)? {
            None => {
                return Ok(Found {
                    value: set,
                    end: at + 1,
                });
            }
            Some(m) => {
                set = sets::insert(set, m.value);
                low = m.value + 1;
                at = m.end;
            }
        }
    }
    closed_set(s, at, set)
}

// The members at place i behind the opening bracket.
fn members_at(s: &[u8], i: usize) -> Result<Found<Set>, Fault>
    ensures { result ≡ set_scan_of (run members_format (bytes s.now) i) }
{
    if byte_at(s, i) == CLOSE {
        return Ok(Found {
            value: sets::empty(),
            end: i + 1,
        });
    }
    let n = number_at(s, i, 0, sets::HIGHEST)?;
    more_members(s, n.end, n.value + 1, sets::insert(sets::empty(), n.value))
}

// The set at place i.
pub fn set_at(s: &[u8], i: usize) -> Result<Found<Set>, Fault>
    ensures { result ≡ set_scan_of (run set_format (bytes s.now) i) }
{
    if byte_at(s, i) == OPEN {
        return members_at(s, i + 1);
    }
    Err(Fault { at: i })
}
