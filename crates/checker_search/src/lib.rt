// Searches over places. A place's turns are told by the moves of its input and by `to`: the place that each row leads to.
#![tactic(auto)]

ghost use Rattle.std.specs.Prelude.{◌≡◌, ◌+◌, ◌-◌, ◌≤◌, ◌<◌, length};
ghost use Rattle.checker_places.specs.Place.{most_places};
ghost use Rattle.sets.specs.Words.{capacity, bits_of};
ghost use Rattle.checker_search.specs.Turns.{Grid};
ghost use Rattle.checker_search.specs.Queues.{Sized, Queued, FinderFits, Visited, Spread, Exhausted, Held, Unmarked, Reach};
ghost use Rattle.checker_search.specs.Queues.{Finders, Chained, Copied, FirstIn, FirstAt};

use checker_places::PLACES;
use sets::Set;

// Puts place d behind the queue's n, with its finder, where it may be entered and is not marked yet.
pub fn visit(
    places: usize,
    within: &[u8; PLACES],
    mark: &mut [u8; PLACES],
    queue: &mut [u16; PLACES],
    from: &mut [u16; PLACES],
    n: usize,
    finder: usize,
    d: usize,
) -> usize
    requires { FinderFits places finder mark.old queue.old from.old n }
    ensures { Visited places within.now finder d mark.old queue.old from.old n mark.new
        queue.new from.new result }
{
    if d >= places {
        return n;
    }
    if within[d] != 1 {
        return n;
    }
    if mark[d] == 1 {
        return n;
    }
    mark[d] = 1;
    queue[n] = d as u16;
    from[n] = finder as u16;
    n + 1
}

// Visits every place that a turn enters from place `at`.
fn spread(
    inputs: usize,
    places: usize,
    moves: &[u64; sets::ROW_WORDS],
    to: &[u16; PLACES],
    within: &[u8; PLACES],
    mark: &mut [u8; PLACES],
    queue: &mut [u16; PLACES],
    from: &mut [u16; PLACES],
    n: usize,
    finder: usize,
    at: usize,
) -> usize
    requires { Grid inputs places moves.now to.now × FinderFits places finder mark.old queue.old from.old n × (at < places) }
    ensures { Spread inputs places moves.now to.now within.now finder at mark.old queue.old
        from.old n mark.new queue.new from.new result }
{
    let base = at / inputs * inputs;
    let mut found = n;
    for j in sets::row_of(moves, at % inputs) {
        let d = usize::from(to[base + j]);
        found = visit(places, within, mark, queue, from, found, finder, d);
    }
    found
}

// Follows the turns of every place in the queue, also of those that it finds.
pub fn exhaust(
    inputs: usize,
    places: usize,
    moves: &[u64; sets::ROW_WORDS],
    to: &[u16; PLACES],
    within: &[u8; PLACES],
    mark: &mut [u8; PLACES],
    queue: &mut [u16; PLACES],
    from: &mut [u16; PLACES],
    n: usize,
) -> usize
    requires { Grid inputs places moves.now to.now × Queued places mark.old queue.old from.old n }
    ensures { Exhausted inputs places moves.now to.now within.now mark.old queue.old
        from.old n mark.new queue.new from.new result }
{
    let mut a: usize = 0;
    let mut found = n;
    // The queue grows while it is followed, so that no range has its places.
    while a < found {
        let c = usize::from(queue[a]);
        found = spread(
            inputs,
            places,
            moves,
            to,
            within,
            mark,
            queue,
            from,
            found,
            a + 1,
            c,
        );
        a += 1;
    }
    found
}

// Takes the marks of the queue's n places away: an attempt costs what it finds.
fn unmark(mark: &mut [u8; PLACES], queue: &[u16; PLACES], n: usize)
    requires { Held mark.old queue.now n }
    ensures { Unmarked mark.new }
{
    for k in 0..n {
        let a = usize::from(queue[k]);
        mark[a] = 0;
    }
}

// What `at` reaches by one turn or more inside `within`, after a search whose queue had n places.
pub fn reach(
    inputs: usize,
    places: usize,
    moves: &[u64; sets::ROW_WORDS],
    to: &[u16; PLACES],
    within: &[u8; PLACES],
    mark: &mut [u8; PLACES],
    queue: &mut [u16; PLACES],
    from: &mut [u16; PLACES],
    n: usize,
    at: usize,
) -> usize
    requires { Grid inputs places moves.now to.now × Sized mark.old queue.old from.old × Held mark.old queue.old n × (at < places) }
    ensures { Reach inputs places moves.now to.now within.now at mark.new queue.new
        from.new result }
{
    unmark(mark, queue, n);
    let first = spread(
        inputs, places, moves, to, within, mark, queue, from, 0, 0, at,
    );
    exhaust(inputs, places, moves, to, within, mark, queue, from, first)
}

// Writes the way to queue place k at the end of `out`, from its finders; the answer is where it begins.
pub fn chain(
    queue: &[u16; PLACES],
    from: &[u16; PLACES],
    k: usize,
    out: &mut [u16; PLACES],
) -> usize
    requires { (k < most_places) × Finders k from.now × (length out.old ≡ most_places) }
    ensures { Chained queue.now from.now k out.new result }
{
    let mut k = k;
    let mut i: usize = 4095;
    out[i] = queue[k];
    while from[k] != 0 {
        k = usize::from(from[k]) - 1;
        i -= 1;
        out[i] = queue[k];
    }
    i
}

// Copies entries a to e - 1 to the places from `at` on.
pub fn copy(src: &[u16], a: usize, e: usize, dst: &mut [u16], at: usize)
    requires { (a ≤ e) × (e ≤ length src.now) × (at + (e - a) ≤ length dst.old) }
    ensures { Copied src.now a e dst.old at dst.new }
{
    dst[at..at + (e - a)].copy_from_slice(&src[a..e]);
}

// The first of the queue's n places whose input belongs to x.
pub fn first_in(inputs: usize, queue: &[u16; PLACES], n: usize, x: Set) -> Option<usize>
    requires { (0 < inputs) × (inputs ≤ capacity) × (n ≤ most_places) }
    ensures { FirstIn inputs queue.now n (bits_of x) result }
{
    for k in 0..n {
        if sets::member(x, usize::from(queue[k]) % inputs) {
            return Some(k);
        }
    }
    None
}

// The first of the queue's n places that is v.
pub fn first_at(queue: &[u16; PLACES], n: usize, v: usize) -> Option<usize>
    requires { n ≤ most_places }
    ensures { FirstAt queue.now n v result }
{
    for k in 0..n {
        if usize::from(queue[k]) == v {
            return Some(k);
        }
    }
    None
}
