// What several parts of the environment's table share: its rows, and the inputs that are not won with an output.
#![tactic(auto)]

ghost use Rattle.std.specs.Prelude.{◌≡◌, true, ◌<◌, ◌≤◌};
ghost use Rattle.bits.specs.Member.{pack, within};
ghost use Rattle.sets.specs.Words.{capacity, bits_of, sets_in, set_count};
ghost use Rattle.scratch.specs.Scratch.{scratch_sets};
ghost use Rattle.environment_table.specs.Pressing.{lost_in};

use game::{InSet, InState, OutState};

pub mod rows; // where its rows lie
pub mod sorts; // the table engine's calls, with inputs and outputs

// The members of x that make no won position with o. All of x are below n.
pub fn lost(s: &[u64], n: usize, inner: InSet, x: InSet, o: OutState) -> InSet
    requires { (n ≤ capacity) × (o.0 < capacity) × (scratch_sets n o.0 < set_count s.now) × (within (bits_of x.0) n ≡ true) }
    ensures { bits_of result.0 ≡ pack n (lost_in (sets_in s.now) n (bits_of inner.0) (bits_of x.0) o.0) }
{
    let mut y = sets::empty();
    for j in x.0 {
        y = sets::insert_if(y, j, !scratch::won(s, n, inner, InState(j), o));
    }
    InSet(y)
}
