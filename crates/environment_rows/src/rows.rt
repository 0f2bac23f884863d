// Where the rows lie.
ghost use Rattle.environment_table.specs.Table.{EnvironmentLayout};

use table_layout::Layout;

// Where the rows lie: by input, counter and output, after the start.
pub fn layout_of(inputs: usize, counters: usize, outputs: usize) -> Layout
    ensures { EnvironmentLayout inputs counters outputs result }
{
    Layout {
        base: 1,
        states: inputs,
        counters,
        width: outputs,
    }
}
