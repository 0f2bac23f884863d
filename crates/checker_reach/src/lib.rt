// What a controller's table reaches: its starts, every place that turns lead to, and the first row that is none.
#![tactic(auto)]

ghost use Rattle.std.specs.Prelude.{◌≡◌, ◌<◌};
ghost use Rattle.checker_search.specs.Turns.{Grid};
ghost use Rattle.checker_reach.specs.Reach.{OpenFits, Opens, NoneAfter, ScanFits, Scanned, StemFits, Stem};

use checker_places::PLACES;
use game::{Game, InState};

// How many places are in the queue, and the first initial input whose start is none.
#[derive(Clone, Copy)]
pub struct Opened {
    pub found: usize,
    pub bad: Option<usize>,
}

// The queue place and the next input of a row that is none.
#[derive(Clone, Copy)]
pub struct Gap {
    pub at: usize,
    pub input: usize,
}

// Visits the places of the first configurations.
pub fn open(
    g: Game,
    counters: usize,
    places: usize,
    table: &[u16],
    all: &[u8; PLACES],
    mark: &mut [u8; PLACES],
    queue: &mut [u16; PLACES],
    from: &mut [u16; PLACES],
) -> Opened
    requires { OpenFits g counters places table.now all.now mark.old queue.old from.old }
    ensures { Opens g places table.now mark.new queue.new from.new result }
{
    let mut found: usize = 0;
    for i in 0..g.input.states {
        if !player_place::begins_with(g, InState(i)) {
            continue;
        }
        let s = usize::from(checker_rows::start(g, counters, table, InState(i)));
        if s == 65535 {
            return Opened {
                found,
                bad: Some(i),
            };
        }
        found = checker_search::visit(places, all, mark, queue, from, found, 0, s);
    }
    Opened { found, bad: None }
}

// The lowest next input of place c whose row is none.
fn none_after(
    inputs: usize,
    places: usize,
    moves: &[u64; sets::ROW_WORDS],
    to: &[u16; PLACES],
    c: usize,
) -> Option<usize>
    requires { Grid inputs places moves.now to.now × (c < places) }
    ensures { NoneAfter inputs moves.now to.now c result }
{
    let base = c / inputs * inputs;
    for j in sets::row_of(moves, c % inputs) {
        if to[base + j] == 65535 {
            return Some(j);
        }
    }
    None
}

// The first of the queue's n places after which a row is none.
pub fn scan(
    inputs: usize,
    places: usize,
    moves: &[u64; sets::ROW_WORDS],
    to: &[u16; PLACES],
    queue: &[u16; PLACES],
    n: usize,
) -> Option<Gap>
    requires { Grid inputs places moves.now to.now × ScanFits places queue.now n }
    ensures { Scanned inputs moves.now to.now queue.now n result }
{
    for k in 0..n {
        if let Some(j) = none_after(inputs, places, moves, to, usize::from(queue[k])) {
            return Some(Gap { at: k, input: j });
        }
    }
    None
}

// Writes the way to queue place k to the front of the room.
pub fn stem(
    queue: &[u16; PLACES],
    from: &[u16; PLACES],
    k: usize,
    way: &mut [u16; PLACES],
    room: &mut [u16],
) -> usize
    requires { StemFits from.now k way.old room.old }
    ensures { Stem queue.now from.now k room.old room.new result }
{
    let first = checker_search::chain(queue, from, k, way);
    checker_search::copy(way, first, PLACES, room, 0);
    PLACES - first
}
