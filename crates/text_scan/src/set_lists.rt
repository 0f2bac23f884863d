// Lists of sets, and the lines that have them, read from a place on.
ghost use Rattle.std.specs.Prelude.{◌≡◌, ◌+◌, ◌<◌, length};
ghost use Rattle.sets.specs.Words.{bits_of};
ghost use Rattle.text_grammar.specs.Format.{run};
ghost use Rattle.text_grammar.specs.Place.{bytes};
ghost use Rattle.text_shape.specs.Shape.{no_sets, push, more_sets, sets_format, guarantees_format, requirement_format};
ghost use Rattle.text_shape.specs.Text.{in_sets, out_sets, empty_requirement};
ghost use Rattle.text_scan.specs.Scan.{numbers_of, sets_with, sets_of, requirement_of};

use game::{InSet, OutSet, Requirement};
use sets::Set;
use text_pieces::{Fault, Found};

// A list of sets, and how many of them it has.
#[derive(Clone, Copy)]
pub struct SetList {
    pub sets: [Set; 4],
    pub count: usize,
}

// The sets at place i behind the first, x.
fn more_sets(s: &[u8], i: usize, x: Set) -> Result<Found<SetList>, Fault>
    ensures { result ≡ sets_of (run (more_sets 3 (push no_sets (bits_of x))) (bytes s.now) i) }
{
    let none = sets::empty();
    let mut list = [none; 4];
    list[0] = x;
    let mut at = i;
    for count in 1..4 {
        let b = text_pieces::byte_at(s, at);
        if b == text_pieces::CLOSE {
            return Ok(Found {
                value: SetList { sets: list, count },
                end: at + 1,
            });
        }
        if b != text_pieces::BLANK {
            return Err(Fault { at });
        }
        let y = text_pieces::set_at(s, at + 1)?;
        list[count] = y.value;
        at = y.end;
    }
    if text_pieces::byte_at(s, at) != text_pieces::CLOSE {
        return Err(Fault { at });
    }
    Ok(Found {
        value: SetList {
            sets: list,
            count: 4,
        },
        end: at + 1,
    })
}

// The list of sets at place i.
pub fn sets_at(s: &[u8], i: usize) -> Result<Found<SetList>, Fault>
    ensures { result ≡ sets_of (run sets_format (bytes s.now) i) }
{
    if text_pieces::byte_at(s, i) != text_pieces::OPEN {
        return Err(Fault { at: i });
    }
    let j = i + 1;
    if text_pieces::byte_at(s, j) == text_pieces::CLOSE {
        let none = sets::empty();
        return Ok(Found {
            value: SetList {
                sets: [none; 4],
                count: 0,
            },
            end: j + 1,
        });
    }
    let x = text_pieces::set_at(s, j)?;
    more_sets(s, x.end, x.value)
}

// Sets of the list as sets of input states.
fn in_sets(l: [Set; 4]) -> [InSet; 4]
    requires { (length l ≡ 4) × (sets_with (numbers_of l) ≡ l) }
    ensures { result ≡ in_sets (numbers_of l) }
{
    [InSet(l[0]), InSet(l[1]), InSet(l[2]), InSet(l[3])]
}

// Sets of the list as sets of output states.
fn out_sets(l: [Set; 4]) -> [OutSet; 4]
    requires { (length l ≡ 4) × (sets_with (numbers_of l) ≡ l) }
    ensures { result ≡ out_sets (numbers_of l) }
{
    [OutSet(l[0]), OutSet(l[1]), OutSet(l[2]), OutSet(l[3])]
}

// A requirement without sets.
pub fn empty_requirement() -> Requirement
    ensures { result ≡ empty_requirement }
{
    let none = sets::empty();
    let x = InSet(none);
    let y = OutSet(none);
    Requirement {
        assumptions: [x; 4],
        assumed: 0,
        guarantees: [y; 4],
        guaranteed: 0,
    }
}

// A requirement's line at place i, behind its first list.
fn guarantees_at(
    s: &[u8],
    i: usize,
    first: [Set; 4],
    count: usize,
) -> Result<Found<Requirement>, Fault>
    requires { (length first ≡ 4) × (sets_with (numbers_of first) ≡ first) }
    ensures { result ≡ requirement_of (run (guarantees_format (record { words = numbers_of first; count = count })) (bytes s.now) i) }
{
    if text_pieces::byte_at(s, i) != text_pieces::BLANK {
        return Err(Fault { at: i });
    }
    let b = sets_at(s, i + 1)?;
    let end = text_lines::end_at(s, b.end)?;
    let value = Requirement {
        assumptions: in_sets(first),
        assumed: count,
        guarantees: out_sets(b.value.sets),
        guaranteed: b.value.count,
    };
    Ok(Found { value, end })
}

// A requirement's line at place i.
pub fn requirement_at(s: &[u8], i: usize) -> Result<Found<Requirement>, Fault>
    ensures { result ≡ requirement_of (run requirement_format (bytes s.now) i) }
{
    let j = text_lines::opening_at(s, i, 3)?;
    let a = sets_at(s, j)?;
    guarantees_at(s, a.end, a.value.sets, a.value.count)
}
