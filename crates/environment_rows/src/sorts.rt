// The calls of the table engine for the environment's table: inputs are its own states, outputs the others. Nowhere else does one become the other.
ghost use Rattle.std.specs.Prelude.{◌≡◌, true, ◌<◌, length};
ghost use Rattle.bits.specs.Member.{within};
ghost use Rattle.sets.specs.Words.{bits_of, sets_in};
ghost use Rattle.table_goals.specs.Goal.{Goals};
ghost use Rattle.table_goals.specs.Ranges.{Short};
ghost use Rattle.table_layout.specs.Rows.{LayoutFits, Entries, Wrote};
ghost use Rattle.table_walks.specs.Staying.{Entering, Enters, Approaches};
ghost use Rattle.table_tours.specs.Course.{Moving, Stayed, RangeWritten};

use game::{InSet, InState, OutSet, OutState};
use table_counters::CounterSet;
use table_goals::GoalRange;
use table_layout::{Layout, Other, OtherSet, Own, OwnSet};

// first + more × h in the row of input i, counter h and output b, for each h of `which` and each b of `over`.
pub fn write(
    room: &mut [u16],
    z: Layout,
    i: InState,
    over: OutSet,
    which: CounterSet,
    first: u16,
    more: u16,
)
    requires { LayoutFits z (length room.old) × (i.0 < z.states) × Entries z which.0 first more }
    ensures { Wrote z i.0 (bits_of over.0) which.0 first more room.old room.new }
{
    let others = over.0;
    table_layout::write(room, z, Own(i.0), OtherSet(others), which, first, more);
}

// The rows of the inputs of x with output o: the lowest move into the target.
pub fn enter(
    moves: &[u64; sets::ROW_WORDS],
    room: &mut [u16],
    z: Layout,
    x: InSet,
    target: InSet,
    o: OutState,
)
    requires { LayoutFits z (length room.old) × Entering (sets_in moves.now) z.states (bits_of x.0) (bits_of target.0) × (o.0 < z.width) }
    ensures { Enters (sets_in moves.now) z (bits_of x.0) (bits_of target.0) o.0 room.old room.new }
{
    let own = x.0;
    let ahead = target.0;
    table_walks::enter(moves, room, z, OwnSet(own), OwnSet(ahead), Other(o.0));
}

// The rows of the states inside a set that are not of the target and have a way there.
pub fn approach(
    moves: &[u64; sets::ROW_WORDS],
    room: &mut [u16],
    z: Layout,
    inside: InSet,
    target: InSet,
    over: OutSet,
)
    requires { LayoutFits z (length room.old) × (within (bits_of target.0) z.states ≡ true) }
    ensures { Approaches (sets_in moves.now) z (bits_of inside.0) (bits_of target.0) (bits_of over.0) room.old
        room.new }
{
    let around = inside.0;
    let ahead = target.0;
    let others = over.0;
    table_walks::approach(
        moves,
        room,
        z,
        OwnSet(around),
        OwnSet(ahead),
        OtherSet(others),
    );
}

// The rows of the states of c where no set is to be visited.
pub fn stay(moves: &[u64; sets::ROW_WORDS], room: &mut [u16], z: Layout, c: InSet, over: OutSet)
    requires { LayoutFits z (length room.old) × Moving (sets_in moves.now) z.states (bits_of c.0) }
    ensures { Stayed (sets_in moves.now) z (bits_of c.0) (bits_of over.0) room.old room.new }
{
    let own = c.0;
    let others = over.0;
    table_tours::stay(moves, room, z, OwnSet(own), OtherSet(others));
}

// The rows of the states of c for the goals of q among the sets of t.
pub fn aim_some(
    moves: &[u64; sets::ROW_WORDS],
    room: &mut [u16],
    z: Layout,
    c: InSet,
    over: OutSet,
    q: CounterSet,
    t: GoalRange,
)
    requires { LayoutFits z (length room.old) × (within (bits_of c.0) z.states ≡ true) × Goals q.0 z.counters 0 × Short t }
    ensures { RangeWritten (sets_in moves.now) z (bits_of c.0) (bits_of over.0) q.0 t t.count room.old
        room.new }
{
    let own = c.0;
    let others = over.0;
    table_tours::aim_some(moves, room, z, OwnSet(own), OtherSet(others), q, t);
}
