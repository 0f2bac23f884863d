// Walks by the shortest way to a set of states, for both sides: a breadth-first search over sets that goes backward from the set and writes the rows
// of a state in the round in which it finds the state's move. There is no list of moves. Nothing here knows of sides.
#![tactic(auto)]

ghost use Rattle.std.specs.Prelude.{◌≡◌, true, ◌≤◌, ◌<◌, length};
ghost use Rattle.bits.specs.Member.{within};
ghost use Rattle.sets.specs.Words.{capacity, bits_of, sets_in};
ghost use Rattle.table_counters.specs.Counters.{most_counters};
ghost use Rattle.table_layout.specs.Rows.{LayoutFits, Wrote};
ghost use Rattle.table_walks.specs.Walk.{first_entry, Stamps, Settled, Ground, Walks};
ghost use Rattle.table_walks.specs.Trying.{Trying};
ghost use Rattle.table_walks.specs.Staying.{Staying, Entering, Enters, Approaches};

use sets::Set;
use table_counters::CounterSet;
use table_layout::{Layout, Other, OtherSet, Own, OwnSet};

// What a state's move to p writes, for the columns of `over` and the counters of `which`: p with the counter `hit` where p is in the set `goal`, else with
// the counter `miss`, and `more` × counter. So a counter stays where more is the step between counters and the others are 0.
#[derive(Clone, Copy)]
pub struct Stamp {
    pub over: OtherSet,
    pub which: CounterSet,
    pub goal: OwnSet,
    pub hit: usize,
    pub miss: usize,
    pub more: u16,
}

// The entry of a move to p, without its share of the counter.
fn first_entry(w: Stamp, p: usize) -> u16
    requires { (p < capacity) × (w.hit < most_counters) × (w.miss < most_counters) }
    ensures { result ≡ first_entry w p }
{
    let goal = w.goal;
    if sets::member(goal.0, p) {
        return table_entries::pack(p, w.hit);
    }
    table_entries::pack(p, w.miss)
}

// The rows of state s, whose move is p.
pub fn write_move(room: &mut [u16], z: Layout, s: Own, p: Own, w: Stamp)
    requires { LayoutFits z (length room.old) × (s.0 < z.states) × (p.0 < capacity) × Stamps z w }
    ensures { Wrote z s.0 (bits_of w.over.0) w.which.0 (first_entry w p.0) w.more room.old room.new }
{
    let first = first_entry(w, p.0);
    let over = w.over;
    let which = w.which;
    table_layout::write(room, z, s, over, which, first, w.more);
}

// A part of a round: the states that settled in it, and those that are still to be tried.
#[derive(Clone, Copy)]
struct Tried {
    settled: Set,
    rest: Set,
}

// The part of a round that tries the low states: each with a move into `reached` gets its rows. Most sets have no others, and most states no such
// move: those are passed over.
fn settle_low(
    rows: &[u64; sets::ROW_WORDS],
    room: &mut [u16],
    z: Layout,
    inside: Set,
    left: Set,
    reached: Set,
    w: Stamp,
) -> Tried
    requires { LayoutFits z (length room.old) × Stamps z w × (within (bits_of reached) z.states ≡ true) }
    ensures { Trying (sets_in rows.now) z (bits_of inside) (bits_of left) (bits_of reached) w room.old room.new
        (bits_of result.settled) (bits_of result.rest) }
{
    let near = sets::intersection(inside, reached);
    let mut settled = sets::empty();
    let tried = sets::intersection(left, sets::below(z.states));
    let mut rest = graph_ways::pass_over(rows, near, tried);
    while sets::begins_low(rest) {
        let s = sets::lowest_low(rest);
        let open = graph_ways::choices(rows, inside, left, reached, s);
        if !sets::is_empty(open) {
            write_move(room, z, Own(s), Own(graph_ways::prefer(s, open)), w);
            settled = sets::insert(settled, s);
        }
        rest = graph_ways::pass_over(rows, near, sets::without_lowest_low(rest));
    }
    Tried { settled, rest }
}

// One round: every state of `left` with a move into `reached` gets its rows. The answer is the set of these states.
fn settle(
    rows: &[u64; sets::ROW_WORDS],
    room: &mut [u16],
    z: Layout,
    inside: Set,
    left: Set,
    reached: Set,
    w: Stamp,
) -> Set
    requires { LayoutFits z (length room.old) × Stamps z w × (within (bits_of reached) z.states ≡ true) }
    ensures { Settled (sets_in rows.now) z (bits_of inside) (bits_of left) (bits_of reached) w room.old room.new
        (bits_of result) }
{
    let low = settle_low(rows, room, z, inside, left, reached, w);
    let mut settled = low.settled;
    for t in low.rest {
        let moves = graph_ways::choices(rows, inside, left, reached, t);
        if !sets::is_empty(moves) {
            write_move(room, z, Own(t), Own(graph_ways::prefer(t, moves)), w);
            settled = sets::insert(settled, t);
        }
    }
    settled
}

// The rows of the states of `own` with a way inside a set to the target: the move with the shortest way. All states inside that are not of `own` are
// of the target.
pub fn walk(
    rows: &[u64; sets::ROW_WORDS],
    room: &mut [u16],
    z: Layout,
    inside: OwnSet,
    target: OwnSet,
    own: OwnSet,
    w: Stamp,
)
    requires { LayoutFits z (length room.old) × Stamps z w × Ground z.states (bits_of inside.0) (bits_of target.0) (bits_of own.0) }
    ensures { Walks (sets_in rows.now) z (bits_of inside.0) (bits_of target.0) (bits_of own.0) w room.old room.new }
{
    let mut reached = target.0;
    let mut left = own.0;
    while !sets::is_empty(left) {
        let settled = settle(rows, room, z, inside.0, left, reached, w);
        if sets::is_empty(settled) {
            return;
        }
        reached = sets::union(reached, settled);
        left = sets::difference(left, settled);
    }
}

// What a state's move writes for the columns of `over` where the counter stays, for all counters.
fn counter_stays(z: Layout, over: OtherSet) -> Stamp
    requires { z.counters ≤ most_counters }
    ensures { Staying z (bits_of over.0) result }
{
    Stamp {
        over,
        which: table_counters::below(z.counters),
        goal: OwnSet(sets::empty()),
        hit: 0,
        miss: 0,
        more: table_entries::STEP,
    }
}

// The rows of the states of `own` in the column b: the lowest move into the target; the counter stays. Each has such a move.
pub fn enter(
    rows: &[u64; sets::ROW_WORDS],
    room: &mut [u16],
    z: Layout,
    own: OwnSet,
    target: OwnSet,
    b: Other,
)
    requires { LayoutFits z (length room.old) × Entering (sets_in rows.now) z.states (bits_of own.0) (bits_of target.0) × (b.0 < z.width) }
    ensures { Enters (sets_in rows.now) z (bits_of own.0) (bits_of target.0) b.0 room.old room.new }
{
    let all = table_counters::below(z.counters);
    for s in own.0 {
        let open = sets::intersection(sets::row_of(rows, s), target.0);
        let first = table_entries::pack(sets::lowest(open), 0);
        table_layout::write_column(room, z, Own(s), b, all, first, table_entries::STEP);
    }
}

// The rows of the states inside a set that are not of the target and have a way there, for the columns of `over`: the move with the shortest way; the
// counter stays.
pub fn approach(
    rows: &[u64; sets::ROW_WORDS],
    room: &mut [u16],
    z: Layout,
    inside: OwnSet,
    target: OwnSet,
    over: OtherSet,
)
    requires { LayoutFits z (length room.old) × (within (bits_of target.0) z.states ≡ true) }
    ensures { Approaches (sets_in rows.now) z (bits_of inside.0) (bits_of target.0) (bits_of over.0) room.old room.new }
{
    let w = counter_stays(z, over);
    walk(
        rows,
        room,
        z,
        inside,
        target,
        OwnSet(sets::difference(inside.0, target.0)),
        w,
    );
}
