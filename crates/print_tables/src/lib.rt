// The print of an answer, whole: parts of the program `solve`. The lines follow one another in the buffer from its front on; a public function answers
// the print's length. What lies past the buffer's end is left out; that in the program nothing is, `Printed` shows (solve/specs).
#![tactic(auto)]

ghost use Rattle.std.specs.Prelude.{◌≡◌, ◌-◌, ◌≤◌, length};
ghost use Rattle.text_put.specs.Put.{Puts};
ghost use Rattle.print_tables.specs.Print.{start_lines, step_lines, in_range, controller_fits, environment_fits, controller_answer, environment_answer};

// The controller's starts, for the inputs 0 to n - 1.
fn put_starts(buffer: &mut [u8], at: usize, n: usize, table: &[u16]) -> usize
    requires { n ≤ length table.now }
    ensures { Puts buffer.old at (start_lines n 0 table.now) result buffer.new }
{
    let mut to = at;
    for i in 0..n {
        to = print_lines::put_start(buffer, to, i, table[i]);
    }
    to
}

// The rows, which are the entries from `first` on.
fn put_steps(
    buffer: &mut [u8],
    at: usize,
    sets: usize,
    last: usize,
    first: usize,
    table: &[u16],
) -> usize
    requires { first ≤ length table.now }
    ensures { Puts buffer.old at (step_lines (length table.now - first) 0 sets last first table.now) result
        buffer.new }
{
    let n = table.len() - first;
    let mut to = at;
    for k in 0..n {
        to = print_lines::put_step(buffer, to, sets, last, k, table[first + k]);
    }
    to
}

// Whether a game can have so many inputs, outputs and sets.
fn in_range(inputs: usize, outputs: usize, sets: usize) -> bool
    ensures { result ≡ in_range inputs outputs sets }
{
    if inputs > 128 {
        return false;
    }
    if outputs > 128 {
        return false;
    }
    sets <= 32
}

// Whether a controller's table has n entries.
fn controller_fits(inputs: usize, outputs: usize, sets: usize, n: usize) -> bool
    ensures { result ≡ controller_fits inputs outputs sets n }
{
    if !in_range(inputs, outputs, sets) {
        return false;
    }
    n == inputs + outputs * print_lines::at_least_one(sets) * inputs
}

// Whether an environment's table has n entries.
fn environment_fits(inputs: usize, outputs: usize, sets: usize, n: usize) -> bool
    ensures { result ≡ environment_fits inputs outputs sets n }
{
    if !in_range(inputs, outputs, sets) {
        return false;
    }
    n == 1 + inputs * print_lines::at_least_one(sets) * outputs
}

// The whole print of a controller's table. `sets` counts the guarantees. A table that does not fit the dimensions, which the program never has, prints
// nothing.
pub fn put_controller(
    buffer: &mut [u8],
    inputs: usize,
    outputs: usize,
    sets: usize,
    table: &[u16],
) -> usize
    ensures { Puts buffer.old 0 (controller_answer inputs outputs sets table.now) result buffer.new }
{
    if !controller_fits(inputs, outputs, sets, table.len()) {
        return 0;
    }
    let a = print_lines::put_wins(buffer, true);
    let b = put_starts(buffer, a, inputs, table);
    put_steps(buffer, b, sets, inputs, inputs, table)
}

// The whole print of an environment's table. `sets` counts the assumptions. A table that does not fit the dimensions, which the program never has,
// prints nothing.
pub fn put_environment(
    buffer: &mut [u8],
    inputs: usize,
    outputs: usize,
    sets: usize,
    table: &[u16],
) -> usize
    ensures { Puts buffer.old 0 (environment_answer inputs outputs sets table.now) result buffer.new }
{
    if !environment_fits(inputs, outputs, sets, table.len()) {
        return 0;
    }
    let a = print_lines::put_wins(buffer, false);
    let b = print_lines::put_environment_start(buffer, a, table[0]);
    put_steps(buffer, b, sets, outputs, 1, table)
}
