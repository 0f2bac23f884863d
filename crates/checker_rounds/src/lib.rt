// Attempts at a round: one pivot and what it reaches inside a set of places show a round that visits every assumption, or places that lie on none.
#![tactic(auto)]

ghost use Rattle.std.specs.Prelude.{◌≡◌, ◌<◌};
ghost use Rattle.checker_rounds.specs.Rounds.{Cut, CutFits, LegFits, Leg, LegsFit, Legs as LegsOf, AttemptFits, Attempted};

use checker_places::{PLACES, WALK};
use game::Requirement;

// Where the legs end, how many places its search has in the queue, and how long the walk is, None where it lacks an assumption.
#[derive(Clone, Copy)]
pub struct Course {
    pub end: usize,
    pub found: usize,
    pub length: Option<usize>,
}

// How many places the last search has in the queue, and the length of the round that was found.
#[derive(Clone, Copy)]
pub struct Tried {
    pub found: usize,
    pub round: Option<usize>,
}

// Takes u and the queue's n places out of `kept`.
fn cut(kept: &mut [u8; PLACES], queue: &[u16; PLACES], n: usize, u: usize)
    requires { CutFits kept.old queue.now n u }
    ensures { Cut kept.old queue.now n u kept.new }
{
    for k in 0..n {
        let a = usize::from(queue[k]);
        kept[a] = 0;
    }
    kept[u] = 0;
}

// Takes the walk of `length` places on to queue place k.
fn leg(
    queue: &[u16; PLACES],
    from: &[u16; PLACES],
    k: usize,
    way: &mut [u16; PLACES],
    walk: &mut [u16; WALK],
    length: usize,
) -> usize
    requires { LegFits from.now k way.old walk.old length }
    ensures { Leg queue.now from.now k walk.old length way.new walk.new result }
{
    let first = checker_search::chain(queue, from, k, way);
    checker_search::copy(way, first, PLACES, walk, length);
    length + (PLACES - first)
}

// Walks from v through the assumptions in turn, each leg to the first place that the search from the last one found; `queue` has what v reaches.
fn legs(
    inputs: usize,
    places: usize,
    moves: &[u64; sets::ROW_WORDS],
    to: &[u16; PLACES],
    q: Requirement,
    kept: &[u8; PLACES],
    mark: &mut [u8; PLACES],
    queue: &mut [u16; PLACES],
    from: &mut [u16; PLACES],
    way: &mut [u16; PLACES],
    walk: &mut [u16; WALK],
    n: usize,
    v: usize,
) -> Course
    requires { LegsFit inputs places moves.now to.now q kept.now mark.old queue.old from.old way.old walk.old n v }
    ensures { LegsOf inputs places moves.now to.now q kept.now v mark.old mark.new
        queue.new from.new way.new walk.new result }
{
    let mut end = v;
    let mut found = n;
    let mut length: usize = 1;
    for j in 0..q.assumed {
        let x = q.assumptions[j];
        let Some(k) = checker_search::first_in(inputs, queue, found, x.0) else {
            return Course {
                end,
                found,
                length: None,
            };
        };
        length = leg(queue, from, k, way, walk, length);
        end = usize::from(queue[k]);
        found = checker_search::reach(
            inputs, places, moves, to, kept, mark, queue, from, found, end,
        );
    }
    Course {
        end,
        found,
        length: Some(length),
    }
}

// Tries v, a place of `kept`, as a pivot, after a search whose queue had n places. Where its legs end outside what leads back to it, their end is the
// next pivot: it reaches less.
pub fn attempt(
    inputs: usize,
    places: usize,
    moves: &[u64; sets::ROW_WORDS],
    to: &[u16; PLACES],
    q: Requirement,
    kept: &mut [u8; PLACES],
    mark: &mut [u8; PLACES],
    queue: &mut [u16; PLACES],
    from: &mut [u16; PLACES],
    way: &mut [u16; PLACES],
    walk: &mut [u16; WALK],
    n: usize,
    v: usize,
) -> Tried
    requires { AttemptFits inputs places moves.now to.now q kept.old mark.old queue.old from.old way.old walk.old n v }
    ensures { Attempted inputs places moves.now to.now q kept.old kept.new mark.new
        queue.new from.new way.new walk.new result }
{
    let mut pivot = v;
    let mut found = checker_search::reach(
        inputs, places, moves, to, kept, mark, queue, from, n, pivot,
    );
    while mark[pivot] == 1 {
        walk[0] = pivot as u16;
        let l = legs(
            inputs, places, moves, to, q, kept, mark, queue, from, way, walk, found, pivot,
        );
        let Some(length) = l.length else {
            cut(kept, queue, l.found, l.end);
            return Tried {
                found: l.found,
                round: None,
            };
        };
        if mark[pivot] == 1 {
            // What is marked is in the queue.
            let k = checker_search::first_at(queue, l.found, pivot).unwrap();
            let round = leg(queue, from, k, way, walk, length);
            return Tried {
                found: l.found,
                round: Some(round),
            };
        }
        pivot = l.end;
        found = l.found;
    }
    cut(kept, queue, 0, pivot);
    Tried { found, round: None }
}
