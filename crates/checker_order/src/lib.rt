// An order in which to try places: those of last components first, so that what a place reaches is its own component. It is advice: the checker's
// answer is right in any order, and nothing is shown of this one.
#![tactic(auto)]

ghost use Rattle.std.specs.Prelude.{◌≡◌, true, ◌≤◌, ◌<◌, length, IfSome};
ghost use Rattle.checker_places.specs.Place.{most_places};
ghost use Rattle.sets.specs.Words.{capacity, row_words, words_for};
ghost use Rattle.checker_order.specs.Picks.{Tries};

use checker_places::PLACES;
use sets::Set;

// The inputs that move to input j.
fn sources(inputs: usize, moves: &[u64; sets::ROW_WORDS], j: usize) -> Set
    requires { (inputs ≤ capacity) × (j < capacity) }
{
    let mut x = sets::empty();
    for i in 0..inputs {
        x = sets::insert_if(x, i, sets::member(sets::row_of(moves, i), j));
    }
    x
}

// Turns the moves round: row j of `into` becomes the inputs that move to j.
fn turn_round(inputs: usize, moves: &[u64; sets::ROW_WORDS], into: &mut [u64; sets::ROW_WORDS])
    requires { (inputs ≤ capacity) × (length into.old ≡ row_words) }
{
    for j in 0..inputs {
        sets::put_of(into, j, sources(inputs, moves, j));
    }
}

// Lists the rows that lead to each place: `head` has the first of them, `link` the next after each; 65,535 ends a list.
fn list_rows(places: usize, to: &[u16; PLACES], head: &mut [u16; PLACES], link: &mut [u16; PLACES])
    requires { places ≤ most_places }
{
    for r in 0..places {
        let d = usize::from(to[r]);
        if d < places {
            link[r] = head[d];
            head[d] = r as u16;
        }
    }
}

// Whether place c is not seen yet. Row x of `unseen` has the inputs of the places with output and counter x.
fn is_unseen(inputs: usize, unseen: &[u64], c: usize) -> bool
    requires { (0 < inputs) × (inputs ≤ capacity) × (c < most_places) × (words_for most_places ≤ length unseen.now) }
{
    sets::member(sets::row(unseen, c / inputs), c % inputs)
}

fn see(inputs: usize, unseen: &mut [u64], c: usize)
    requires { (0 < inputs) × (inputs ≤ capacity) × (c < most_places) × (words_for most_places ≤ length unseen.old) }
{
    let x = sets::row(unseen, c / inputs);
    let y = sets::insert(sets::empty(), c % inputs);
    sets::put(unseen, c / inputs, sets::difference(x, y));
}

// Makes place c unseen where it is kept. Most are not, and their input is not worked out.
fn add(inputs: usize, kept: u8, unseen: &mut [u64], c: usize)
    requires { (0 < inputs) × (inputs ≤ capacity) × (c < most_places) × (words_for most_places ≤ length unseen.old) }
{
    if kept != 1 {
        return;
    }
    let x = sets::row(unseen, c / inputs);
    sets::put(unseen, c / inputs, sets::insert(x, c % inputs));
}

// Makes the kept places unseen.
fn gather(inputs: usize, places: usize, kept: &[u8; PLACES], unseen: &mut [u64])
    requires { (0 < inputs) × (inputs ≤ capacity) × (places ≤ most_places) × (words_for most_places ≤ length unseen.old) }
{
    for c in 0..places {
        add(inputs, kept[c], unseen, c);
    }
}

// The lowest input of an unseen place from which row r is followed.
fn source(inputs: usize, back: &[u64; sets::ROW_WORDS], unseen: &[u64], r: usize) -> Option<usize>
    requires { (0 < inputs) × (inputs ≤ capacity) × (r < most_places) × (words_for most_places ≤ length unseen.now) }
    ensures { IfSome result (λ i. i < capacity) }
{
    let x = sets::row(unseen, r / inputs);
    let y = sets::intersection(x, sets::row_of(back, r % inputs));
    if sets::is_empty(y) {
        return None;
    }
    Some(sets::lowest(y))
}

// Puts c behind the order's n places.
fn append(order: &mut [u16; PLACES], n: usize, c: usize) -> usize
    requires { (n ≤ most_places) × (c < most_places) }
    ensures { result ≤ most_places }
{
    if n == PLACES {
        return n;
    }
    order[n] = c as u16;
    n + 1
}

// Sees place d and puts it on the stack of `top` places, with the first row that leads to it.
fn push(
    inputs: usize,
    head: &[u16; PLACES],
    unseen: &mut [u64],
    stack: &mut [u16; PLACES],
    row: &mut [u16; PLACES],
    top: usize,
    d: usize,
) -> usize
    requires { (0 < inputs) × (inputs ≤ capacity) × (words_for most_places ≤ length unseen.old) × (top ≤ most_places) }
    ensures { result ≤ most_places }
{
    if top == PLACES {
        return top;
    }
    if d >= PLACES {
        return top;
    }
    see(inputs, unseen, d);
    row[d] = head[d];
    stack[top] = d as u16;
    top + 1
}

// Goes back against the turns from place v, and puts each place behind the order once all before it are there. A row is left once and a place pushed
// and popped once, so that 16,384 steps are enough.
fn finish(
    inputs: usize,
    places: usize,
    back: &[u64; sets::ROW_WORDS],
    head: &[u16; PLACES],
    link: &[u16; PLACES],
    unseen: &mut [u64],
    stack: &mut [u16; PLACES],
    row: &mut [u16; PLACES],
    order: &mut [u16; PLACES],
    n: usize,
    v: usize,
) -> usize
    requires { (0 < inputs) × (inputs ≤ capacity) × (places ≤ most_places) × (words_for most_places ≤ length unseen.old)
        × (n ≤ most_places) × (v < most_places) }
    ensures { result ≤ most_places }
{
    if !is_unseen(inputs, unseen, v) {
        return n;
    }
    let mut count = n;
    let mut top = push(inputs, head, unseen, stack, row, 0, v);
    for _step in 0..16384 {
        if top == 0 {
            return count;
        }
        let c = usize::from(stack[top - 1]) % PLACES;
        let r = usize::from(row[c]);
        if r >= places {
            count = append(order, count, c);
            top -= 1;
            continue;
        }
        let Some(i) = source(inputs, back, unseen, r) else {
            row[c] = link[r];
            continue;
        };
        top = push(
            inputs,
            head,
            unseen,
            stack,
            row,
            top,
            r / inputs * inputs + i,
        );
    }
    count
}

// The order of the kept places: the last of them is to be tried first. The answer is how many it has.
pub fn advise(
    inputs: usize,
    places: usize,
    moves: &[u64; sets::ROW_WORDS],
    to: &[u16; PLACES],
    kept: &[u8; PLACES],
    order: &mut [u16; PLACES],
) -> usize
    requires { (0 < inputs) × (inputs ≤ capacity) × (places ≤ most_places) }
    ensures { result ≤ most_places }
{
    let mut back = [0u64; sets::ROW_WORDS];
    let mut head = [65535u16; PLACES];
    let mut link = [65535u16; PLACES];
    let mut unseen = [0u64; 8192];
    let mut stack = [0u16; PLACES];
    let mut row = [0u16; PLACES];
    turn_round(inputs, moves, &mut back);
    list_rows(places, to, &mut head, &mut link);
    gather(inputs, places, kept, &mut unseen);
    let mut n: usize = 0;
    for v in 0..places {
        if kept[v] != 1 {
            continue;
        }
        n = finish(
            inputs,
            places,
            &back,
            &head,
            &link,
            &mut unseen,
            &mut stack,
            &mut row,
            order,
            n,
            v,
        );
    }
    n
}

// Whether p is a place that is kept.
fn holds(places: usize, kept: &[u8; PLACES], p: usize) -> bool
    requires { places ≤ most_places }
    ensures { result ≡ true → Tries places kept.now p }
{
    if p >= places {
        return false;
    }
    kept[p] == 1
}

// How many of the order's first n places are left without those at its end that are not kept.
pub fn left(places: usize, kept: &[u8; PLACES], order: &[u16; PLACES], n: usize) -> usize
    requires { (places ≤ most_places) × (n ≤ most_places) }
    ensures { result ≤ most_places }
{
    for k in (0..n).rev() {
        if holds(places, kept, usize::from(order[k])) {
            return k + 1;
        }
    }
    0
}

// The last of the order's n places where it is kept, else v.
pub fn pick(places: usize, kept: &[u8; PLACES], order: &[u16; PLACES], n: usize, v: usize) -> usize
    requires { (places ≤ most_places) × (n ≤ most_places) × Tries places kept.now v }
    ensures { Tries places kept.now result }
{
    if n == 0 {
        return v;
    }
    let p = usize::from(order[n - 1]);
    if holds(places, kept, p) {
        return p;
    }
    v
}
