// Sets of positions in scratch: one set of outputs for each input, a row. Whole sets are copied, emptied, united and met, row by row.
#![tactic(auto)]

ghost use Rattle.std.specs.Prelude.{◌+◌, ◌≤◌};
ghost use Rattle.sets.specs.Words.{sets_in, set_count};
ghost use Rattle.barred_rows.specs.Areas.{barred_sets, Beside, Copied, Emptied, United, Met};

// What is kept (Z) stands first; what is reached (Y), and where the controller stays (X) begin at these sets.
pub const KEPT: usize = 0;

pub const REACHED: usize = 128;

pub const STAYING: usize = 640;

// Where to look first, so that nothing is looked for in vain: the inputs that move to each input, the outputs that move to each output, and what has been
// followed with each input.
pub const BEFORE_INPUT: usize = 256;

pub const BEFORE_OUTPUT: usize = 384;

pub const FOLLOWED: usize = 512;

// Copies n rows from set number `from` on to those from set number `to` on.
pub fn copy(s: &mut [u64], n: usize, from: usize, to: usize)
    requires { (barred_sets ≤ set_count s.old) × (from + n ≤ barred_sets) × (to + n ≤ barred_sets) × Beside from to n }
    ensures { Copied n from to (sets_in s.old) (sets_in s.new) }
{
    for i in 0..n {
        sets::put(s, to + i, sets::row(s, from + i));
    }
}

// Empties n rows from set number `at` on.
pub fn empty(s: &mut [u64], n: usize, at: usize)
    requires { (barred_sets ≤ set_count s.old) × (at + n ≤ barred_sets) }
    ensures { Emptied n at (sets_in s.old) (sets_in s.new) }
{
    let none = sets::empty();
    for i in 0..n {
        sets::put(s, at + i, none);
    }
}

// Adds to n rows from set number `to` on those from set number `from` on. Whether that adds a position.
pub fn unite(s: &mut [u64], n: usize, from: usize, to: usize) -> bool
    requires { (barred_sets ≤ set_count s.old) × (from + n ≤ barred_sets) × (to + n ≤ barred_sets) × Beside from to n }
    ensures { United n from to (sets_in s.old) (sets_in s.new) result }
{
    let mut grew = false;
    for i in 0..n {
        let old = sets::row(s, to + i);
        let more = sets::difference(sets::row(s, from + i), old);
        if !sets::is_empty(more) {
            sets::put(s, to + i, sets::union(old, more));
            grew = true;
        }
    }
    grew
}

// Takes out of n rows from set number `to` on what is not in those from set number `from` on. Whether that takes a position.
pub fn meet(s: &mut [u64], n: usize, from: usize, to: usize) -> bool
    requires { (barred_sets ≤ set_count s.old) × (from + n ≤ barred_sets) × (to + n ≤ barred_sets) × Beside from to n }
    ensures { Met n from to (sets_in s.old) (sets_in s.new) result }
{
    let mut shrank = false;
    for i in 0..n {
        let old = sets::row(s, to + i);
        let lost = sets::difference(old, sets::row(s, from + i));
        if !sets::is_empty(lost) {
            sets::put(s, to + i, sets::difference(old, lost));
            shrank = true;
        }
    }
    shrank
}
