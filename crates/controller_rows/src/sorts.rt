// The calls of the table engine for the controller's table: outputs are its own states, and its columns stand for inputs (`leaders::columns_of`). Nowhere else
// does one become the other, but for a single row (`rows::write_row`).
ghost use Rattle.std.specs.Prelude.{◌≡◌, true, length};
ghost use Rattle.bits.specs.Member.{within};
ghost use Rattle.sets.specs.Words.{bits_of, sets_in};
ghost use Rattle.table_goals.specs.Goal.{Goals};
ghost use Rattle.table_goals.specs.Ranges.{Short};
ghost use Rattle.table_layout.specs.Rows.{LayoutFits};
ghost use Rattle.table_walks.specs.Staying.{Approaches};
ghost use Rattle.table_tours.specs.Course.{Moving, Stayed, RangeWritten};

use game::OutSet;
use table_counters::CounterSet;
use table_goals::GoalRange;
use table_layout::{Layout, OtherSet, OwnSet};

// The rows of the states inside a set that are not of the target and have a way there.
pub fn approach(
    moves: &[u64; sets::ROW_WORDS],
    room: &mut [u16],
    z: Layout,
    inside: OutSet,
    target: OutSet,
    over: OtherSet,
)
    requires { LayoutFits z (length room.old) × (within (bits_of target.0) z.states ≡ true) }
    ensures { Approaches (sets_in moves.now) z (bits_of inside.0) (bits_of target.0) (bits_of over.0) room.old
        room.new }
{
    let around = inside.0;
    let ahead = target.0;
    table_walks::approach(moves, room, z, OwnSet(around), OwnSet(ahead), over);
}

// The rows of the states of c where no set is to be visited.
pub fn stay(moves: &[u64; sets::ROW_WORDS], room: &mut [u16], z: Layout, c: OutSet, over: OtherSet)
    requires { LayoutFits z (length room.old) × Moving (sets_in moves.now) z.states (bits_of c.0) }
    ensures { Stayed (sets_in moves.now) z (bits_of c.0) (bits_of over.0) room.old room.new }
{
    let own = c.0;
    table_tours::stay(moves, room, z, OwnSet(own), over);
}

// The rows of the states of c for the goals of q among the sets of t.
pub fn aim_some(
    moves: &[u64; sets::ROW_WORDS],
    room: &mut [u16],
    z: Layout,
    c: OutSet,
    over: OtherSet,
    q: CounterSet,
    t: GoalRange,
)
    requires { LayoutFits z (length room.old) × (within (bits_of c.0) z.states ≡ true) × Goals q.0 z.counters 0 × Short t }
    ensures { RangeWritten (sets_in moves.now) z (bits_of c.0) (bits_of over.0) q.0 t t.count room.old
        room.new }
{
    let own = c.0;
    table_tours::aim_some(moves, room, z, OwnSet(own), over, q, t);
}
