// For each requirement and each of its guarantees: the reachable places outside the guarantee are emptied by attempts, or one finds a round.
#![tactic(auto)]

ghost use Rattle.std.specs.Prelude.{◌≡◌, ◌/◌, ◌<◌, not, ◌&&◌, eqb};
ghost use Rattle.bits.specs.Member.{has};
ghost use Rattle.sets.specs.Words.{capacity, bits_of};
ghost use Rattle.checker_pairs.specs.Pairs.{KeepFits, Keep, PairFits, Emptied, ServeFits, Served, JudgeFits, Judged};

use checker_places::{PLACES, WALK};
use checker_rounds::Tried;
use game::{Game, OutSet, Requirement};
use sets::Set;

// The length of a round that was found, and the requirement that it breaks.
#[derive(Clone, Copy)]
pub struct Verdict {
    pub round: usize,
    pub requirement: usize,
}

// 1 for place c where it is reached and its output is outside y, else 0. Of a place that is not reached the output is not worked out.
fn outside(inputs: usize, counters: usize, reached: u8, y: Set, c: usize) -> u8
    requires { (0 < inputs) × (0 < counters) × (c / inputs / counters < capacity) }
    ensures { eqb result 1 ≡ (eqb reached 1 && not (has (bits_of y) (c / inputs / counters))) }
{
    if reached != 1 {
        return 0;
    }
    if sets::member(y, c / inputs / counters) {
        return 0;
    }
    1
}

// Marks in `kept` the places of `reached` whose output is outside x.
fn keep(
    inputs: usize,
    counters: usize,
    places: usize,
    reached: &[u8; PLACES],
    x: OutSet,
    kept: &mut [u8; PLACES],
)
    requires { KeepFits inputs counters places kept.old }
    ensures { Keep inputs counters places reached.now (bits_of x.0) kept.new places }
{
    let y = x.0;
    for c in 0..places {
        kept[c] = outside(inputs, counters, reached[c], y, c);
    }
}

// Empties `kept` by attempts at its places, unless one finds a round. The order in which they are tried is advice: whatever it is, each place is tried.
fn empty(
    inputs: usize,
    places: usize,
    moves: &[u64; sets::ROW_WORDS],
    to: &[u16; PLACES],
    q: Requirement,
    kept: &mut [u8; PLACES],
    mark: &mut [u8; PLACES],
    queue: &mut [u16; PLACES],
    from: &mut [u16; PLACES],
    way: &mut [u16; PLACES],
    walk: &mut [u16; WALK],
    n: usize,
) -> Tried
    requires { PairFits inputs places moves.now to.now q kept.old mark.old queue.old from.old way.old walk.old n }
    ensures { Emptied inputs places moves.now to.now q kept.old kept.new mark.new
        queue.new from.new way.new walk.new result }
{
    let mut order = [0u16; PLACES];
    let mut k = checker_order::advise(inputs, places, moves, to, kept, &mut order);
    let mut found = n;
    for v in 0..places {
        while kept[v] == 1 {
            k = checker_order::left(places, kept, &order, k);
            let pivot = checker_order::pick(places, kept, &order, k, v);
            let t = checker_rounds::attempt(
                inputs, places, moves, to, q, kept, mark, queue, from, way, walk, found, pivot,
            );
            if t.round.is_some() {
                return t;
            }
            found = t.found;
        }
    }
    Tried { found, round: None }
}

// All guarantees of q. `reached` has the reachable places.
fn serve(
    inputs: usize,
    counters: usize,
    places: usize,
    moves: &[u64; sets::ROW_WORDS],
    to: &[u16; PLACES],
    reached: &[u8; PLACES],
    q: Requirement,
    kept: &mut [u8; PLACES],
    mark: &mut [u8; PLACES],
    queue: &mut [u16; PLACES],
    from: &mut [u16; PLACES],
    way: &mut [u16; PLACES],
    walk: &mut [u16; WALK],
    n: usize,
) -> Tried
    requires { ServeFits inputs places moves.now to.now counters q kept.old mark.old queue.old from.old way.old walk.old n }
    ensures { Served inputs places moves.now to.now counters q reached.now kept.new mark.new
        queue.new from.new way.new walk.new result }
{
    let mut found = n;
    for b in 0..q.guaranteed {
        let x = q.guarantees[b];
        keep(inputs, counters, places, reached, x, kept);
        let t = empty(
            inputs, places, moves, to, q, kept, mark, queue, from, way, walk, found,
        );
        if t.round.is_some() {
            return t;
        }
        found = t.found;
    }
    Tried { found, round: None }
}

// All guarantees of all requirements.
pub fn judge(
    g: Game,
    inputs: usize,
    counters: usize,
    places: usize,
    moves: &[u64; sets::ROW_WORDS],
    to: &[u16; PLACES],
    reached: &[u8; PLACES],
    walk: &mut [u16; WALK],
) -> Option<Verdict>
    requires { JudgeFits inputs places moves.now to.now counters g walk.old }
    ensures { Judged inputs places moves.now to.now counters g reached.now walk.new result }
{
    let mut kept = [0u8; PLACES];
    let mut mark = [0u8; PLACES];
    let mut queue = [0u16; PLACES];
    let mut from = [0u16; PLACES];
    let mut way = [0u16; PLACES];
    let mut found: usize = 0;
    for r in 0..g.k {
        let t = serve(
            inputs,
            counters,
            places,
            moves,
            to,
            reached,
            g.requirements[r],
            &mut kept,
            &mut mark,
            &mut queue,
            &mut from,
            &mut way,
            walk,
            found,
        );
        if let Some(round) = t.round {
            return Some(Verdict {
                round,
                requirement: r,
            });
        }
        found = t.found;
    }
    None
}
