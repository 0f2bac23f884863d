// The entries of a controller's table: a start for each input, then rows by output, counter and input. What a table lacks reads as none.
#![tactic(auto)]

ghost use Rattle.std.specs.Prelude.{◌≡◌, get_or};
ghost use Rattle.theory.specs.Entries.{none_entry};
ghost use Rattle.view.specs.Rows.{row_entry, in_range as is_row};

use game::{InState, OutState};

// Entry number k. (SPEC 9.5)
pub fn entry(rows: &[u16], k: usize) -> u16
    ensures { result ≡ get_or rows.now k none_entry }
{
    if k < rows.len() {
        return rows[k];
    }
    table_entries::NONE
}

// The start entry of input i. (SPEC 9.5)
pub fn start(rows: &[u16], i: InState) -> u16
    ensures { result ≡ get_or rows.now i.0 none_entry }
{
    entry(rows, i.0)
}

// A row: the output and the counter before it, and the new input.
#[derive(Clone, Copy)]
pub struct RowIndex {
    pub output: OutState,
    pub counter: usize,
    pub input: InState,
}

// Whether a table with these dimensions has the row.
pub fn in_range(inputs: usize, counters: usize, at: RowIndex) -> bool
    ensures { result ≡ is_row inputs counters at.output.0 at.counter at.input.0 }
{
    if inputs > sets::CAPACITY {
        return false;
    }
    if counters > 32 {
        return false;
    }
    if at.output.0 >= sets::CAPACITY {
        return false;
    }
    if at.counter >= counters {
        return false;
    }
    at.input.0 < inputs
}

// The entry of a row. (SPEC 9.5)
pub fn lookup(rows: &[u16], inputs: usize, counters: usize, at: RowIndex) -> u16
    ensures { result ≡ row_entry rows.now inputs counters at.output.0 at.counter at.input.0 }
{
    if !in_range(inputs, counters, at) {
        return table_entries::NONE;
    }
    let o = at.output.0;
    let j = at.input.0;
    entry(rows, inputs + ((o * counters + at.counter) * inputs + j))
}

// A table's entries with its dimensions.
#[derive(Clone, Copy)]
pub struct Table<'a> {
    pub rows: &'a [u16],
    pub inputs: usize,
    pub counters: usize,
}

// The entry of a row of the table. (SPEC 9.5)
pub fn row<'a>(t: Table<'a>, at: RowIndex) -> u16
    ensures { result ≡ row_entry t.entry.rows.now t.entry.inputs t.entry.counters at.output.0 at.counter at.input.0 }
{
    lookup(t.rows, t.inputs, t.counters, at)
}

// The entry of a row, read through a view of the table. (SPEC 9.5)
pub fn read(rows: &[u16], inputs: usize, counters: usize, at: RowIndex) -> u16
    ensures { result ≡ row_entry rows.now inputs counters at.output.0 at.counter at.input.0 }
{
    row(
        Table {
            rows,
            inputs,
            counters,
        },
        at,
    )
}
