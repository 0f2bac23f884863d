// The region's rows, one component after the other, each after those that it reaches.
#![tactic(auto)]

ghost use Rattle.std.specs.Prelude.{◌≡◌, true, not, ◌&&◌, ◌≢◌, ℕ, ◌+◌, ◌≤◌, ◌<◌};
ghost use Rattle.finite.specs.Bounded.{count as members};
ghost use Rattle.bits.specs.Member.{has, pack};
ghost use Rattle.sets.specs.Words.{capacity, bits_of, sets_in, set_count};
ghost use Rattle.graph_components.specs.Component.{enters};
ghost use Rattle.graphs.specs.Component.{joined};
ghost use Rattle.play.specs.Play.{graph_of, separated_of};
ghost use Rattle.scratch.specs.Stored.{stored_row, Laid};
ghost use Rattle.game.specs.declared.Game.{Game};
ghost use Rattle.board.specs.Board.{in_rows, game_on};
ghost use Rattle.region_dues.specs.Dues.{Serving};
ghost use Rattle.region_rows.specs.Fill.{RowReady, Inside, Descending, Bottom, RowsPut, Filling, PastKept};

use board::Sizes;
use game::{InSet, InState, OutSet};
use region_dues::Servers;
use scratch::Nontrivial;

// The inputs that moves out of the inputs of a enter.
fn entered(z: Sizes, b: &[u64; board::WORDS], a: InSet) -> InSet
    requires { z.inputs ≤ capacity }
    ensures { (t : ℕ) → has (bits_of result.0) t
        ≡ (enters (sets_in (in_rows b.now)) (bits_of a.0) z.inputs t && not (has (bits_of a.0) t)) }
{
    let rows = board::in_rows(b);
    InSet(graph_components::leaving(rows, z.inputs, a.0))
}

// The region's row of input i, a being its component, where the rows of the inputs that it reaches past its component stand. t has the outputs that serve
// each requirement.
fn stored_row(
    z: Sizes,
    b: &[u64; board::WORDS],
    t: Servers,
    s: &[u64],
    x: Nontrivial,
    a: InSet,
    i: InState,
) -> OutSet
    ghost g: { Game }
    requires b_value { game_on z b.now ≡ g }
    requires row_ready { RowReady g s.now x i.0 × Serving g t.first t.second
        × (bits_of a.0 ≡ pack z.inputs (joined (graph_of g.input) i.0)) }
    ensures { bits_of result.0 ≡ stored_row (separated_of g) i.0 }
{
    let c = x.inputs;
    if sets::member(c.0, i.0) {
        let among = region_dues::accepted(z, b, t, a, x.outputs);
        return region_homes::home_row(s, z.inputs, z.outputs, c, entered(z, b, a), among);
    }
    region_replies::reply_row(z, b, s, c, i)
}

// The way down from an input: where it has come, and the inputs that are left to look at.
#[derive(Clone, Copy)]
struct Descent {
    at: InState,
    rest: InSet,
}

// Looks at one input more, and goes to it where it does not lead back.
fn descend(z: Sizes, b: &[u64; board::WORDS], s: &[u64], left: InSet, d: Descent) -> Descent
    ghost g: { Game }
    requires b_value { game_on z b.now ≡ g }
    requires inputs_le_capacity { (z.inputs ≤ capacity) × Laid g s.now × Inside g (bits_of left.0)
        × Descending g (bits_of left.0) d × (bits_of d.rest.0 ≢ 0) }
    ensures { Descending g (bits_of left.0) result
        × (members capacity (has (bits_of result.rest.0)) < members capacity (has (bits_of d.rest.0))) }
{
    let at = d.at;
    let rest = d.rest;
    let t = sets::lowest(rest.0);
    let row = scratch::in_reach(s, InState(t));
    let less = sets::without_lowest(rest.0);
    if sets::member(row.0, at.0) {
        return Descent {
            at,
            rest: InSet(less),
        };
    }
    Descent {
        at: InState(t),
        rest: InSet(sets::intersection(less, row.0)),
    }
}

// An input of `left` that reaches none of these but those of its own component.
fn bottom(z: Sizes, b: &[u64; board::WORDS], s: &[u64], left: InSet) -> InState
    ghost g: { Game }
    requires b_value { game_on z b.now ≡ g }
    requires inputs_le_capacity { (z.inputs ≤ capacity) × Laid g s.now × Inside g (bits_of left.0) × (bits_of left.0 ≢ 0) }
    ensures { Bottom g (bits_of left.0) result.0 }
{
    let first = sets::lowest(left.0);
    let row = scratch::in_reach(s, InState(first));
    let mut d = Descent {
        at: InState(first),
        rest: InSet(sets::intersection(left.0, row.0)),
    };
    loop {
        let rest = d.rest;
        if sets::is_empty(rest.0) {
            break;
        }
        d = descend(z, b, s, left, d);
    }
    d.at
}

// Writes the row r for the inputs of a.
fn put_rows(s: &mut [u64], n: usize, a: InSet, r: OutSet)
    requires { (n ≤ capacity) × ((j : ℕ) → has (bits_of a.0) j ≡ true → j < n) × (n + n ≤ set_count s.old) }
    ensures { RowsPut n (bits_of a.0) (bits_of r.0) s.old s.new }
{
    for i in a.0 {
        scratch::put_region_row(s, n, InState(i), r);
    }
}

// Writes the rows of one component of the inputs that are left, where the rows of the others stand. The answer is those that are left then.
pub fn fill_component(
    z: Sizes,
    b: &[u64; board::WORDS],
    t: Servers,
    s: &mut [u64],
    x: Nontrivial,
    left: InSet,
) -> InSet
    ghost g: { Game }
    requires b_value { game_on z b.now ≡ g }
    requires filling { Filling g x s.old (bits_of left.0) × Serving g t.first t.second × (bits_of left.0 ≢ 0) }
    ensures { Filling g x s.new (bits_of result.0)
        × PastKept g s.old s.new
        × (members capacity (has (bits_of result.0)) < members capacity (has (bits_of left.0))) }
{
    let n = z.inputs;
    let i = bottom(z, b, s, left);
    let a = scratch::in_component(s, n, i, board::in_row(b, i));
    let r = stored_row(z, b, t, s, x, a, i);
    put_rows(s, n, a, r);
    InSet(sets::difference(left.0, a.0))
}
