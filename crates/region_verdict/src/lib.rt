// Which side wins, read from scratch that holds the winning region.
#![tactic(auto)]

ghost use Rattle.std.specs.Prelude.{◌≡◌, ◌<◌};
ghost use Rattle.play.specs.Play.{separated_of};
ghost use Rattle.theory.specs.Region.{opens as opens_at, verdict as verdictOf};
ghost use Rattle.sets.specs.Words.{bits_of};
ghost use Rattle.scratch.specs.Stored.{Ready};
ghost use Rattle.region_verdict.specs.Opens.{opens_with, opens_if};

use game::{Game, InSet, InState, OutState};

// Whether o is an initial output that is won with i; c are the inputs in nontrivial components.
fn opens_with(g: Game, s: &[u64], c: InSet, i: InState, o: OutState) -> bool
    requires { Ready g s.now (bits_of c.0) × (i.0 < g.input.states) × (o.0 < g.output.states) }
    ensures { result ≡ opens_with g i.0 o.0 }
{
    let initial = game::out_initial(g);
    if !sets::member(initial.0, o.0) {
        return false;
    }
    scratch::won(s, g.input.states, c, i, o)
}

// Whether some initial output is won with i.
fn opens(g: Game, s: &[u64], c: InSet, i: InState) -> bool
    requires { Ready g s.now (bits_of c.0) × (i.0 < g.input.states) }
    ensures { result ≡ opens_at (separated_of g) i.0 }
{
    let m = g.output.states;
    for o in 0..m {
        if opens_with(g, s, c, i, OutState(o)) {
            return true;
        }
    }
    false
}

// Whether i is not initial, or some initial output is won with it.
fn opens_if(g: Game, s: &[u64], c: InSet, i: InState) -> bool
    requires { Ready g s.now (bits_of c.0) × (i.0 < g.input.states) }
    ensures { result ≡ opens_if g i.0 }
{
    let initial = game::in_initial(g);
    if !sets::member(initial.0, i.0) {
        return true;
    }
    opens(g, s, c, i)
}

// Whether the system wins.
pub fn system_wins(g: Game, s: &[u64], c: InSet) -> bool
    requires { Ready g s.now (bits_of c.0) }
    ensures { result ≡ verdictOf (separated_of g) }
{
    let n = g.input.states;
    for i in 0..n {
        if !opens_if(g, s, c, InState(i)) {
            return false;
        }
    }
    true
}
