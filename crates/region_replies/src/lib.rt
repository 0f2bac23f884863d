// The region's rows of inputs in trivial components: the outputs with a reply to every next input.
#![tactic(auto)]

ghost use Rattle.std.specs.Prelude.{◌≡◌, true, List, ℕ, ◌≤◌, ◌<◌};
ghost use Rattle.bits.specs.Member.{has, pack};
ghost use Rattle.sets.specs.Words.{capacity, bits_of, sets_in, set_count};
ghost use Rattle.board.specs.Board.{game_on};
ghost use Rattle.scratch.specs.Scratch.{scratch_sets};
ghost use Rattle.region_replies.specs.Replies.{Held, Known, reply_at};

use board::Sizes;
use game::{InSet, InState, OutSet, OutState};

// The outputs of x that are to be looked at for the set `won`: none where they are known to have a move into it, since they have one into the set `last`.
// Next inputs of one component are won with the same outputs, and are not looked at again.
fn unknown(last: OutSet, x: OutSet, won: OutSet) -> OutSet
    ensures { ((o : ℕ) → has (bits_of result.0) o ≡ true → has (bits_of x.0) o ≡ true)
        × ((rows : List ℕ) → Held rows (bits_of last.0) (bits_of x.0) → Known rows (bits_of x.0) (bits_of won.0) (bits_of result.0)) }
{
    if sets::is_empty(won.0) {
        return x;
    }
    if sets::same(won.0, last.0) {
        return OutSet(sets::empty());
    }
    x
}

// The outputs with a reply to every next input of i, all at once: for each next input those that are left are looked at, and the ones with a move to an
// output that is won with it stay. Where there is none, no later input is looked at.
pub fn reply_row(z: Sizes, b: &[u64; board::WORDS], s: &[u64], c: InSet, i: InState) -> OutSet
    requires { (z.inputs ≤ capacity) × (z.outputs ≤ capacity) × (i.0 < z.inputs) × (scratch_sets z.inputs z.outputs ≤ set_count s.now) }
    ensures { bits_of result.0 ≡ pack z.outputs (reply_at (game_on z b.now) (sets_in s.now) (bits_of c.0) i.0) }
{
    let n = z.inputs;
    let m = z.outputs;
    let next = board::in_row(b, i);
    let mut k = scratch::won_first();
    let mut last = OutSet(sets::empty());
    let mut x = sets::below(m);
    'inputs: for j in sets::intersection(next.0, sets::below(n)) {
        k = scratch::won_next(s, n, m, c, InState(j), k);
        let won = k.row;
        let first = unknown(last, OutSet(x), won);
        let mut left = first.0;
        x = sets::difference(x, left);
        loop {
            if sets::is_empty(left) {
                if sets::is_empty(x) {
                    break 'inputs;
                }
                break;
            }
            let o = sets::lowest(left);
            let row = board::out_row(b, OutState(o));
            x = sets::insert_if(x, o, sets::meets(row.0, won.0));
            left = sets::without_lowest(left);
        }
        last = won;
    }
    OutSet(x)
}
