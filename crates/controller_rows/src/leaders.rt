// Columns of the rows: one for each of the leaders, in order.
ghost use Rattle.std.specs.Prelude.{◌≡◌, ◌&&◌, ℕ, ◌≤◌, ltb};
ghost use Rattle.finite.specs.Bounded.{count};
ghost use Rattle.bits.specs.Member.{has};
ghost use Rattle.sets.specs.Words.{capacity, bits_of};
ghost use Rattle.controller_rows.specs.Writes.{leading, input_of};

use crate::Size;
use game::InSet;
use sets::Set;
use table_layout::OtherSet;

// The columns of those leaders that belong to x.
fn among(z: Size, x: InSet) -> Set
    requires { (z.inputs ≤ capacity) × (z.width ≡ count z.inputs (leading z)) }
    ensures { (b : ℕ) → has (bits_of result) b ≡ (ltb b z.width && has (bits_of x.0) (input_of z b)) }
{
    let leaders = z.leaders;
    let mut r = sets::empty();
    let mut b: usize = 0;
    for j in 0..z.inputs {
        if sets::member(leaders.0, j) {
            r = sets::insert_if(r, b, sets::member(x.0, j));
            b += 1;
        }
    }
    r
}

// The same. Where every input leads its column is its own number, and where all leaders belong to x no column is asked for.
pub fn columns_of(z: Size, x: InSet) -> OtherSet
    requires { (z.inputs ≤ capacity) × (z.width ≡ count z.inputs (leading z)) }
    ensures { (b : ℕ) → has (bits_of result.0) b ≡ (ltb b z.width && has (bits_of x.0) (input_of z b)) }
{
    if z.width == z.inputs {
        return OtherSet(sets::intersection(x.0, sets::below(z.inputs)));
    }
    let leaders = z.leaders;
    if sets::is_subset(leaders.0, x.0) {
        return OtherSet(sets::below(z.width));
    }
    OtherSet(among(z, x))
}
