// The rows of a controller's table in the compact layout: a start for each input, the rank of each input's component, then rows by output, counter and
// component. What a table lacks reads as none. The starts are where the full layout has them: `view::start` reads both.
#![tactic(auto)]

ghost use Rattle.std.specs.Prelude.{◌≡◌};
ghost use Rattle.compact_view.specs.Rows.{Looked};

use view::RowIndex;

// The entry of a row: that of the rank which the table has for the new input. (SPEC 9.5, 11.2)
pub fn lookup(rows: &[u16], inputs: usize, counters: usize, components: usize, at: RowIndex) -> u16
    ensures { Looked rows.now inputs counters components at.output.0 at.counter at.input.0 result }
{
    if !view::in_range(inputs, counters, at) {
        return table_entries::NONE;
    }
    if components > inputs {
        return table_entries::NONE;
    }
    let o = at.output.0;
    let j = at.input.0;
    let c = usize::from(view::entry(rows, inputs + j));
    if c >= components {
        return table_entries::NONE;
    }
    view::entry(
        rows,
        inputs + (inputs + ((o * counters + at.counter) * components + c)),
    )
}
