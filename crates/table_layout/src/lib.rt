// Rows of a table in a buffer, for both sides: by own state, the state of the side that moves, by counter and by column, the last running fastest.
// Nothing here knows of sides, but the two sorts of states are told apart: own states, and the others, which the columns stand for.
#![tactic(auto)]

ghost use Rattle.std.specs.Prelude.{◌<◌, length};
ghost use Rattle.sets.specs.Words.{bits_of};
ghost use Rattle.table_layout.specs.Rows.{LayoutFits, Entries, Wrote, WroteColumn};

use sets::Set;
use table_counters::CounterSet;

// Where rows lie: they begin at `base`, one for each of `states` own states, `counters` counters and `width` columns.
#[derive(Clone, Copy)]
pub struct Layout {
    pub base: usize,
    pub states: usize,
    pub counters: usize,
    pub width: usize,
}

// A state of the side whose table it is, and one of the other side, by its column: the number of the state, or, where several share a column, the rank of theirs.
// A function that has both cannot take one for the other.
#[derive(Clone, Copy)]
pub struct Own(pub usize);

#[derive(Clone, Copy)]
pub struct Other(pub usize);

// Sets of them.
#[derive(Clone, Copy)]
pub struct OwnSet(pub Set);

#[derive(Clone, Copy)]
pub struct OtherSet(pub Set);

// first + more × h in the row of state a, counter h and column b, for each h of `which` and each b of `over`.
pub fn write(
    room: &mut [u16],
    z: Layout,
    a: Own,
    over: OtherSet,
    which: CounterSet,
    first: u16,
    more: u16,
)
    requires { LayoutFits z (length room.old) × (a.0 < z.states) × Entries z which.0 first more }
    ensures { Wrote z a.0 (bits_of over.0) which.0 first more room.old room.new }
{
    table_columns::block(
        room,
        z.base + a.0 * z.counters * z.width,
        z.width,
        over.0,
        which,
        first,
        more,
    );
}

// The same for one column b.
pub fn write_column(
    room: &mut [u16],
    z: Layout,
    a: Own,
    b: Other,
    which: CounterSet,
    first: u16,
    more: u16,
)
    requires { LayoutFits z (length room.old) × (a.0 < z.states) × (b.0 < z.width) × Entries z which.0 first more }
    ensures { WroteColumn z a.0 b.0 which.0 first more room.old room.new }
{
    table_columns::column(
        room,
        z.base + a.0 * z.counters * z.width + b.0,
        z.width,
        which,
        first,
        more,
    );
}
