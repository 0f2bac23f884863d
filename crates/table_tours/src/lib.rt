// Tours of a component past sets, for both sides. Nothing here knows of sides.
#![tactic(auto)]

ghost use Rattle.std.specs.Prelude.{◌≡◌, true, length};
ghost use Rattle.bits.specs.Member.{has, within};
ghost use Rattle.sets.specs.Words.{bits_of, sets_in};
ghost use Rattle.table_goals.specs.Goal.{Goals};
ghost use Rattle.table_goals.specs.Ranges.{Short};
ghost use Rattle.table_layout.specs.Rows.{LayoutFits};
ghost use Rattle.table_tours.specs.Course.{Moving, Stayed, Aimed, RangeWritten};

use table_counters::CounterSet;
use table_goals::GoalRange;
use table_layout::{Layout, OtherSet, Own, OwnSet};
use table_walks::Stamp;

// The rows of the states of c where no set is to be visited: the preferred move inside c; the counter stays.
pub fn stay(moves: &[u64; sets::ROW_WORDS], room: &mut [u16], z: Layout, c: OwnSet, over: OtherSet)
    requires { LayoutFits z (length room.old) × Moving (sets_in moves.now) z.states (bits_of c.0) }
    ensures { Stayed (sets_in moves.now) z (bits_of c.0) (bits_of over.0) room.old room.new }
{
    let w = Stamp {
        over,
        which: table_counters::below(z.counters),
        goal: OwnSet(sets::empty()),
        hit: 0,
        miss: 0,
        more: table_entries::STEP,
    };
    for s in c.0 {
        let inside = sets::intersection(sets::row_of(moves, s), c.0);
        table_walks::write_move(room, z, Own(s), Own(graph_ways::prefer(s, inside)), w);
    }
}

// The rows of the states of c for the counters whose goal is a, the set x: the move inside c with the shortest way there. The counter goes on where
// the move lands in x.
pub fn aim(
    moves: &[u64; sets::ROW_WORDS],
    room: &mut [u16],
    z: Layout,
    c: OwnSet,
    over: OtherSet,
    q: CounterSet,
    x: OwnSet,
    a: usize,
)
    requires { LayoutFits z (length room.old) × (within (bits_of c.0) z.states ≡ true) × Goals q.0 z.counters 0 × (has q.0 a ≡ true) }
    ensures { Aimed (sets_in moves.now) z (bits_of c.0) (bits_of over.0) q.0 (bits_of x.0) a room.old room.new }
{
    let past = table_goals::next_counter(z.counters, a, true);
    let w = Stamp {
        over,
        which: table_goals::counters_toward(q, z.counters, a),
        goal: x,
        hit: past,
        miss: a,
        more: 0,
    };
    table_walks::walk(
        moves,
        room,
        z,
        c,
        OwnSet(sets::intersection(x.0, c.0)),
        c,
        w,
    );
}

// The same for the goals of q among the sets of t, one after the other.
pub fn aim_some(
    moves: &[u64; sets::ROW_WORDS],
    room: &mut [u16],
    z: Layout,
    c: OwnSet,
    over: OtherSet,
    q: CounterSet,
    t: GoalRange,
)
    requires { LayoutFits z (length room.old) × (within (bits_of c.0) z.states ≡ true) × Goals q.0 z.counters 0 × Short t }
    ensures { RangeWritten (sets_in moves.now) z (bits_of c.0) (bits_of over.0) q.0 t t.count room.old room.new }
{
    for j in 0..t.count {
        let a = t.from + j;
        if table_counters::member(q, a) {
            let x = t.sets[j];
            aim(moves, room, z, c, over, q, OwnSet(x), a);
        }
    }
}
