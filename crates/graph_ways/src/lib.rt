// Steps of the search for shortest ways to a set of states, which goes backward from the set, round after round.
#![tactic(auto)]

ghost use Rattle.std.specs.Prelude.{◌≡◌, true, ◌<◌};
ghost use Rattle.bits.specs.Member.{has, within};
ghost use Rattle.sets.specs.Words.{capacity, low_states, bits_of, sets_in};
ghost use Rattle.graphs.specs.Way.{prefer as preferred};
ghost use Rattle.graph_ways.specs.Search.{choices as choicesOf, PassedOver};

use sets::Set;

// The choice on a tie, s being the present state: s where it is a member, else the lowest. No other code breaks a tie between shortest ways.
pub fn prefer(s: usize, set: Set) -> usize
    requires { s < capacity }
    ensures { result ≡ preferred capacity s (has (bits_of set)) }
{
    if sets::member(set, s) {
        return s;
    }
    sets::lowest(set)
}

// The states of `from` without the first low ones that have no move into `near`, whose members are all low.
fn pass_over_low(rows: &[u64; sets::ROW_WORDS], near: Set, from: Set) -> Set
    requires { within (bits_of near) low_states ≡ true }
    ensures { PassedOver (sets_in rows.now) (bits_of near) (bits_of from) (bits_of result) }
{
    let mut rest = from;
    while sets::begins_low(rest) {
        let s = sets::lowest_low(rest);
        if sets::row_meets_low(rows, s, near) {
            return rest;
        }
        rest = sets::without_lowest_low(rest);
    }
    rest
}

// The states of `from` without the first ones, as many as are passed over, that have no move into `near`. A round has nothing to write for them, and most are
// such. Low ones are passed over, where all of `near` are low: that costs little. Others are not.
pub fn pass_over(rows: &[u64; sets::ROW_WORDS], near: Set, from: Set) -> Set
    ensures { PassedOver (sets_in rows.now) (bits_of near) (bits_of from) (bits_of result) }
{
    if sets::within(near, sets::LOW) {
        return pass_over_low(rows, near, from);
    }
    from
}

// The moves of s, which is one of `left`, inside a set that land in `reached`.
pub fn choices(rows: &[u64; sets::ROW_WORDS], inside: Set, left: Set, reached: Set, s: usize) -> Set
    requires { (s < capacity) × (has (bits_of left) s ≡ true) }
    ensures { bits_of result ≡ choicesOf (sets_in rows.now) (bits_of inside) (bits_of left) (bits_of reached) s }
{
    let moves = sets::intersection(sets::row_of(rows, s), inside);
    sets::intersection(moves, reached)
}
