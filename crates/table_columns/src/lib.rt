// What the fillings of both tables share: entries written for sets of counters and of columns. Nothing here knows of sides.
#![tactic(auto)]

ghost use Rattle.std.specs.Prelude.{ℕ, ◌+◌, ◌<◌, length};
ghost use Rattle.sets.specs.Words.{bits_of};
ghost use Rattle.table_columns.specs.Column.{ColumnRoom, Column, FrontFits, Front, Run, RowFits, Row, BlockFits, Block};
ghost use Rattle.table_columns.specs.Scattering.{Scattering};

use sets::Set;
use table_counters::CounterSet;

// From so many counters on a column is written faster than a row.
const MANY: usize = 8;

// first + more × h at place base + step × h, for each h below count. Counted, as that is faster than asking a set for its next member.
fn front(room: &mut [u16], base: usize, step: usize, count: usize, first: u16, more: u16)
    requires { FrontFits (length room.old) base step count first more }
    ensures { Front room.old room.new base step count first more count }
{
    for h in 0..count {
        room[base + step * h] = first + more * (h as u16);
    }
}

// The same for each h of any set `which`, lowest first.
fn members(room: &mut [u16], base: usize, step: usize, which: CounterSet, first: u16, more: u16)
    requires { ColumnRoom (length room.old) base step which.0 first more }
    ensures { Column room.old room.new base step which.0 first more }
{
    let mut rest = which;
    while !table_counters::is_empty(rest) {
        let h = table_counters::lowest(rest);
        room[base + step * h] = first + more * (h as u16);
        rest = table_counters::without_lowest(rest);
    }
}

// The same, counted where the set is all counters below some count: then the count is the lowest that does not belong.
pub fn column(room: &mut [u16], base: usize, step: usize, which: CounterSet, first: u16, more: u16)
    requires { ColumnRoom (length room.old) base step which.0 first more }
    ensures { Column room.old room.new base step which.0 first more }
{
    let count = table_counters::lowest(table_counters::difference(
        table_counters::below(table_counters::CAPACITY),
        which,
    ));
    if table_counters::same(which, table_counters::below(count)) {
        front(room, base, step, count, first, more);
        return;
    }
    members(room, base, step, which, first, more);
}

// The value at the places from base on, width of them.
fn run(room: &mut [u16], base: usize, width: usize, value: u16)
    requires { (x : ℕ) → x < width → base + x < length room.old }
    ensures { Run room.old room.new base width value width }
{
    for x in 0..width {
        room[base + x] = value;
    }
}

// The value at base + x for each low x of the set `over`, lowest first. The answer is the rest of the set: most rows have none.
fn scattered_low(room: &mut [u16], base: usize, width: usize, over: Set, value: u16) -> Set
    requires { RowFits (length room.old) base width (bits_of over) }
    ensures { Scattering (length room.old) room.old room.new base width (bits_of over) value (bits_of result) }
{
    let mut rest = over;
    while sets::begins_low(rest) {
        let x = sets::lowest_low(rest);
        room[base + x] = value;
        rest = sets::without_lowest_low(rest);
    }
    rest
}

// The value at base + x for each x of the set `over`, lowest first.
fn scattered(room: &mut [u16], base: usize, width: usize, over: Set, value: u16)
    requires { RowFits (length room.old) base width (bits_of over) }
    ensures { Row room.old room.new base (bits_of over) value }
{
    for x in scattered_low(room, base, width, over, value) {
        room[base + x] = value;
    }
}

// The same, where `over` is all below width as one run.
fn row(room: &mut [u16], base: usize, width: usize, over: Set, value: u16)
    requires { RowFits (length room.old) base width (bits_of over) }
    ensures { Row room.old room.new base (bits_of over) value }
{
    if sets::same(over, sets::below(width)) {
        run(room, base, width, value);
        return;
    }
    scattered(room, base, width, over, value);
}

// A column at base + x for each x < width of the set `over`, with steps of width: row by row, so that places follow one another.
fn by_rows(
    room: &mut [u16],
    base: usize,
    width: usize,
    over: Set,
    which: CounterSet,
    first: u16,
    more: u16,
)
    requires { BlockFits (length room.old) base width (bits_of over) which.0 first more }
    ensures { Block room.old room.new base width (bits_of over) which.0 first more }
{
    let inside = sets::intersection(over, sets::below(width));
    if sets::is_empty(inside) {
        return;
    }
    let mut left = which;
    while !table_counters::is_empty(left) {
        let h = table_counters::lowest(left);
        row(
            room,
            base + width * h,
            width,
            inside,
            first + more * (h as u16),
        );
        left = table_counters::without_lowest(left);
    }
}

// The same, column by column.
fn by_columns(
    room: &mut [u16],
    base: usize,
    width: usize,
    over: Set,
    which: CounterSet,
    first: u16,
    more: u16,
)
    requires { BlockFits (length room.old) base width (bits_of over) which.0 first more }
    ensures { Block room.old room.new base width (bits_of over) which.0 first more }
{
    for x in sets::intersection(over, sets::below(width)) {
        column(room, base + x, width, which, first, more);
    }
}

// The same, by columns where `over` has gaps and many counters follow one another from 0 on, as then a column is counted; else by rows.
pub fn block(
    room: &mut [u16],
    base: usize,
    width: usize,
    over: Set,
    which: CounterSet,
    first: u16,
    more: u16,
)
    requires { BlockFits (length room.old) base width (bits_of over) which.0 first more }
    ensures { Block room.old room.new base width (bits_of over) which.0 first more }
{
    let whole = sets::is_subset(sets::below(width), over);
    let many = table_counters::is_subset(table_counters::below(MANY), which);
    if many && !whole {
        by_columns(room, base, width, over, which, first, more);
        return;
    }
    by_rows(room, base, width, over, which, first, more);
}
