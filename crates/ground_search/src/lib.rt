// The ground of a position, from scratch that holds the winning region.
#![tactic(auto)]

ghost use Rattle.std.specs.Prelude.{◌≡◌, true, false, ◌<◌};
ghost use Rattle.finite.specs.Bounded.{any, least};
ghost use Rattle.sets.specs.Words.{bits_of};
ghost use Rattle.graphs.specs.Component.{nontrivial};
ghost use Rattle.theory.specs.Region.{answers, region};
ghost use Rattle.theory.specs.Choice.{home as home_of};
ghost use Rattle.game.specs.Access.{requirement_at};
ghost use Rattle.play.specs.Play.{graph_of, separated_of};
ghost use Rattle.region_dues.specs.Dues.{Few, due_in};
ghost use Rattle.grounds.specs.Ground.{unreplied as unrepliedAt, lost_exit, ground};
ghost use Rattle.ground_search.specs.Asked.{PositionAsked, Staying, Exits, missed_in, owed_in};
ghost use Rattle.ground_search.specs.Told.{told};

use game::{Game, InSet, InState, OutSet, OutState};

// A ground and what it names, or the number of a refusal. Requirements are counted from 0, and output sets from 0 within their requirement.
#[derive(Clone, Copy)]
pub enum Explanation {
    InputStuck,
    ByReplies,
    AtHome(OutState),
    OutputStuck,
    Unanswered(InState),
    ByWayOut(InState),
    Unserved(usize, usize),
    PushedOn,
}

// The home of a won position with its input in a nontrivial component.
fn home(g: Game, s: &[u64], c: InSet, i: InState, o: OutState) -> OutState
    requires { PositionAsked g s.now c i o × (nontrivial (graph_of g.input) i.0 ≡ true) × (region (separated_of g) i.0 o.0 ≡ true) }
    ensures { result.0 ≡ home_of (separated_of g) i.0 o.0 }
{
    let n = g.input.states;
    let homes = scratch::region_row(s, n, i);
    let reach = scratch::out_reach(s, n, o);
    let ahead = sets::intersection(reach.0, homes.0);
    OutState(sets::lowest(ahead))
}

// Whether some output move of o makes a won position with j.
fn answered(g: Game, s: &[u64], c: InSet, j: InState, o: OutState) -> bool
    requires { PositionAsked g s.now c j o }
    ensures { result ≡ answers (separated_of g) (region (separated_of g)) j.0 o.0 }
{
    let n = g.input.states;
    let m = g.output.states;
    let moves = game::out_moves(g, o);
    let won = scratch::won_outputs(s, n, m, c, j);
    sets::meets(moves.0, won.0)
}

// Whether i moves to j, and no output move of o makes a won position with j.
fn unreplied(g: Game, s: &[u64], c: InSet, i: InState, o: OutState, j: InState) -> bool
    requires { PositionAsked g s.now c i o × (j.0 < g.input.states) }
    ensures { result ≡ unrepliedAt (separated_of g) i.0 o.0 j.0 }
{
    let moves = game::in_moves(g, i);
    if sets::member(moves.0, j.0) {
        return !answered(g, s, c, j, o);
    }
    false
}

// The lowest next input that no output move of o answers; the number of inputs where there is none.
fn first_unreplied(g: Game, s: &[u64], c: InSet, i: InState, o: OutState) -> InState
    requires { PositionAsked g s.now c i o }
    ensures { result.0 ≡ least g.input.states (unrepliedAt (separated_of g) i.0 o.0) }
{
    let n = g.input.states;
    for j in 0..n {
        if unreplied(g, s, c, i, o, InState(j)) {
            return InState(j);
        }
    }
    InState(n)
}

// The states that moves out of the component of i enter.
fn exits(g: Game, s: &[u64], c: InSet, i: InState, o: OutState) -> InSet
    requires { PositionAsked g s.now c i o }
    ensures { Exits g i.0 (bits_of result.0) }
{
    let h = g.input;
    let n = h.states;
    let inside = scratch::in_component(s, n, i, game::in_moves(g, i));
    InSet(graph_components::leaving(&h.moves, n, inside.0))
}

// Whether j is one of the states x, and lost with o.
fn exit_lost(g: Game, s: &[u64], c: InSet, x: InSet, i: InState, o: OutState, j: InState) -> bool
    requires { PositionAsked g s.now c i o × Exits g i.0 (bits_of x.0) × (j.0 < g.input.states) }
    ensures { result ≡ lost_exit (separated_of g) i.0 o.0 j.0 }
{
    if sets::member(x.0, j.0) {
        return !scratch::won(s, g.input.states, c, j, o);
    }
    false
}

// The lowest state that a move out of the component of i enters and that is lost with o; the number of inputs where there is none.
fn first_lost_exit(g: Game, s: &[u64], c: InSet, i: InState, o: OutState) -> InState
    requires { PositionAsked g s.now c i o }
    ensures { result.0 ≡ least g.input.states (lost_exit (separated_of g) i.0 o.0) }
{
    let n = g.input.states;
    let x = exits(g, s, c, i, o);
    for j in 0..n {
        if exit_lost(g, s, c, x, i, o, InState(j)) {
            return InState(j);
        }
    }
    InState(n)
}

// Whether requirement r is due in the set a of inputs.
fn due(g: Game, r: usize, a: InSet) -> bool
    requires { Few g × (r < 8) }
    ensures { result ≡ due_in g (bits_of a.0) r }
{
    let q = g.requirements[r];
    let n = q.assumed;
    for j in 0..n {
        let x = q.assumptions[j];
        if !sets::meets(x.0, a.0) {
            return false;
        }
    }
    true
}

// The first output set of requirement r that misses the set b; the number of its output sets where none does.
fn first_missed(g: Game, r: usize, b: OutSet) -> usize
    requires { Few g × (r < 8) }
    ensures { result ≡ least (requirement_at g r).guaranteed (missed_in g (bits_of b.0) r) }
{
    let q = g.requirements[r];
    let n = q.guaranteed;
    for j in 0..n {
        let x = q.guarantees[j];
        if !sets::meets(x.0, b.0) {
            return j;
        }
    }
    n
}

// Whether requirement r is due in the set a of inputs and one of its output sets misses the set b.
fn owed(g: Game, r: usize, a: InSet, b: OutSet) -> bool
    requires { Few g × (r < 8) }
    ensures { result ≡ owed_in g (bits_of a.0) (bits_of b.0) r }
{
    if due(g, r, a) {
        let q = g.requirements[r];
        return first_missed(g, r, b) < q.guaranteed;
    }
    false
}

// The lowest requirement that is due in a and has an output set that misses b; the number of requirements where there is none.
fn first_owed(g: Game, a: InSet, b: OutSet) -> usize
    requires { Few g }
    ensures { result ≡ least g.k (owed_in g (bits_of a.0) (bits_of b.0)) }
{
    let n = g.k;
    for r in 0..n {
        if owed(g, r, a, b) {
            return r;
        }
    }
    n
}

// The ground of a won position.
fn won_ground(g: Game, s: &[u64], c: InSet, i: InState, o: OutState) -> Explanation
    requires { PositionAsked g s.now c i o × (region (separated_of g) i.0 o.0 ≡ true) }
    ensures { result ≡ told (ground (separated_of g) i.0 o.0) }
{
    let moves = game::in_moves(g, i);
    if sets::is_empty(moves.0) {
        return Explanation::InputStuck;
    }
    if !sets::member(c.0, i.0) {
        return Explanation::ByReplies;
    }
    Explanation::AtHome(home(g, s, c, i, o))
}

// The ground of a lost position with the input in a nontrivial component and no way out lost.
fn output_ground(g: Game, s: &[u64], c: InSet, i: InState, o: OutState) -> Explanation
    requires { PositionAsked g s.now c i o × Staying g i.0 o.0 × (any g.input.states (lost_exit (separated_of g) i.0 o.0) ≡ false) }
    ensures { result ≡ told (ground (separated_of g) i.0 o.0) }
{
    let n = g.input.states;
    let moves = game::out_moves(g, o);
    let b = scratch::out_component(s, n, g.output.states, o, moves);
    if !sets::meets(moves.0, b.0) {
        return Explanation::PushedOn;
    }
    let a = scratch::in_component(s, n, i, game::in_moves(g, i));
    let r = first_owed(g, a, b);
    Explanation::Unserved(r, first_missed(g, r, b))
}

// The ground of a lost position with the input in a nontrivial component.
fn nontrivial_ground(g: Game, s: &[u64], c: InSet, i: InState, o: OutState) -> Explanation
    requires { PositionAsked g s.now c i o × Staying g i.0 o.0 }
    ensures { result ≡ told (ground (separated_of g) i.0 o.0) }
{
    let j = first_lost_exit(g, s, c, i, o);
    if j.0 < g.input.states {
        return Explanation::ByWayOut(j);
    }
    output_ground(g, s, c, i, o)
}

// The ground of a lost position.
fn lost_ground(g: Game, s: &[u64], c: InSet, i: InState, o: OutState) -> Explanation
    requires { PositionAsked g s.now c i o × (region (separated_of g) i.0 o.0 ≡ false) }
    ensures { result ≡ told (ground (separated_of g) i.0 o.0) }
{
    let moves = game::out_moves(g, o);
    if sets::is_empty(moves.0) {
        return Explanation::OutputStuck;
    }
    if !sets::member(c.0, i.0) {
        return Explanation::Unanswered(first_unreplied(g, s, c, i, o));
    }
    nontrivial_ground(g, s, c, i, o)
}

// The ground of the position, c being the inputs in nontrivial components.
pub fn find(g: Game, s: &[u64], c: InSet, i: InState, o: OutState) -> Explanation
    requires { PositionAsked g s.now c i o }
    ensures { result ≡ told (ground (separated_of g) i.0 o.0) }
{
    if scratch::won(s, g.input.states, c, i, o) {
        return won_ground(g, s, c, i, o);
    }
    lost_ground(g, s, c, i, o)
}
