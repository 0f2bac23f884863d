// Rows of the table, for all counters at once.
ghost use Rattle.std.specs.Prelude.{◌≡◌, ◌<◌, length};
ghost use Rattle.controller_rows.specs.Writes.{Stays, layout_of, Table, Row};

use crate::Size;
use game::OutState;
use table_layout::{Layout, Other, Own};

// A pattern of entries: first + more × counter for each counter.
#[derive(Clone, Copy)]
pub struct Pattern {
    pub first: u16,
    pub more: u16,
}

// The state is p and the counter stays; none where p is no state, as the lowest of an empty set.
pub fn staying(p: usize) -> Pattern
    ensures { Stays p result.first result.more }
{
    if p < sets::CAPACITY {
        return Pattern {
            first: table_entries::pack(p, 0),
            more: table_entries::STEP,
        };
    }
    Pattern {
        first: table_entries::NONE,
        more: 0,
    }
}

// Where the rows lie: by output, counter and column.
pub fn layout_of(z: Size) -> Layout
    ensures { result ≡ layout_of z }
{
    Layout {
        base: z.base,
        states: z.outputs,
        counters: z.counters,
        width: z.width,
    }
}

// The rows of output o and column b: state p, the counter stays.
pub fn write_row(room: &mut [u16], z: Size, o: OutState, b: Other, p: usize)
    requires { Table z (length room.old) × (o.0 < z.outputs) × (b.0 < z.width) }
    ensures { Row z o.0 b.0 p room.old room.new }
{
    let e = staying(p);
    table_layout::write_column(room, layout_of(z), Own(o.0), b, z.all, e.first, e.more);
}
