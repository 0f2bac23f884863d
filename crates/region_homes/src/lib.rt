// The region's rows of inputs in nontrivial components: their homes.
#![tactic(auto)]

ghost use Rattle.std.specs.Prelude.{◌≡◌, true, ℕ, ◌≤◌, ◌<◌};
ghost use Rattle.bits.specs.Member.{has, pack};
ghost use Rattle.sets.specs.Words.{capacity, bits_of, sets_in, set_count};
ghost use Rattle.scratch.specs.Scratch.{scratch_sets};
ghost use Rattle.region_homes.specs.Homes.{home_at};

use game::{InSet, InState, OutSet};

// The homes for the inputs of a component: x are the states entered by a move out of it, among the outputs whose components accept it. Of these each input
// of x leaves the outputs that are won with it.
pub fn home_row(s: &[u64], n: usize, m: usize, c: InSet, x: InSet, among: OutSet) -> OutSet
    requires { (n ≤ capacity) × (m ≤ capacity) × (scratch_sets n m ≤ set_count s.now) × ((j : ℕ) → has (bits_of x.0) j ≡ true → j < n)
        × ((d : ℕ) → has (bits_of among.0) d ≡ true → d < m) }
    ensures { bits_of result.0 ≡ pack m (home_at (sets_in s.now) n (bits_of c.0) (bits_of x.0) (bits_of among.0)) }
{
    let mut k = scratch::won_first();
    let mut y = among.0;
    for j in x.0 {
        k = scratch::won_next(s, n, m, c, InState(j), k);
        let won = k.row;
        y = sets::intersection(y, won.0);
    }
    OutSet(y)
}
