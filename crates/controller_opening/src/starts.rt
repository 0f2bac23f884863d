// The start entries.
ghost use Rattle.std.specs.Prelude.{◌≡◌, ◌≤◌, ◌<◌, length};
ghost use Rattle.sets.specs.Words.{capacity, bits_of, sets_in, set_count};
ghost use Rattle.scratch.specs.Scratch.{scratch_sets};
ghost use Rattle.controller_rows.specs.Writes.{Table, start_of, Starts};

use controller_rows::{Size, rows};
use game::{InSet, InState, OutSet};

// The start entry of input i, from the initial states of both sides; c are the inputs in nontrivial components.
fn start(s: &[u64], z: Size, c: InSet, ins: InSet, outs: OutSet, i: InState) -> u16
    requires { (z.inputs ≤ capacity) × (z.outputs ≤ capacity) × (i.0 < z.inputs) × (scratch_sets z.inputs z.outputs ≤ set_count s.now) }
    ensures { result ≡ start_of z (sets_in s.now) (bits_of c.0) (bits_of ins.0) (bits_of outs.0) i.0 }
{
    if sets::member(ins.0, i.0) {
        let won = scratch::won_outputs(s, z.inputs, z.outputs, c, i);
        let e = rows::staying(sets::lowest(sets::intersection(outs.0, won.0)));
        return e.first;
    }
    table_entries::NONE
}

// All start entries.
pub fn starts(room: &mut [u16], s: &[u64], z: Size, c: InSet, ins: InSet, outs: OutSet)
    requires { Table z (length room.old) × (scratch_sets z.inputs z.outputs ≤ set_count s.now) }
    ensures { Starts z (sets_in s.now) (bits_of c.0) (bits_of ins.0) (bits_of outs.0) z.inputs room.old
        room.new }
{
    let n = z.inputs;
    for i in 0..n {
        room[i] = start(s, z, c, ins, outs, InState(i));
    }
}
