// The tests of acceptance on one requirement.
#![tactic(auto)]

ghost use Rattle.std.specs.Prelude.{◌≡◌, ◌<◌};
ghost use Rattle.finite.specs.Bounded.{all};
ghost use Rattle.game.specs.Acceptance.{few_sets, in_set_fits, out_set_fits, in_use, requirement_fits};

use game::{Game, Requirement};

pub fn few_sets(q: Requirement) -> bool
    ensures { result ≡ few_sets q }
{
    if q.assumed > 4 {
        return false;
    }
    q.guaranteed <= 4
}

pub fn in_set_fits(q: Requirement, n: usize, j: usize) -> bool
    requires { j < 4 }
    ensures { result ≡ in_set_fits q n j }
{
    let x = q.assumptions[j];
    sets::within(x.0, accept_graph::limit(q.assumed, j, n))
}

pub fn in_sets_fit(q: Requirement, n: usize) -> bool
    ensures { result ≡ all 4 (in_set_fits q n) }
{
    for j in 0..4 {
        if !in_set_fits(q, n, j) {
            return false;
        }
    }
    true
}

pub fn out_set_fits(q: Requirement, n: usize, j: usize) -> bool
    requires { j < 4 }
    ensures { result ≡ out_set_fits q n j }
{
    let x = q.guarantees[j];
    sets::within(x.0, accept_graph::limit(q.guaranteed, j, n))
}

pub fn out_sets_fit(q: Requirement, n: usize) -> bool
    ensures { result ≡ all 4 (out_set_fits q n) }
{
    for j in 0..4 {
        if !out_set_fits(q, n, j) {
            return false;
        }
    }
    true
}

pub fn in_use(g: Game, r: usize, q: Requirement) -> bool
    ensures { result ≡ in_use g r q }
{
    if r < g.k {
        return true;
    }
    if q.assumed != 0 {
        return false;
    }
    q.guaranteed == 0
}

pub fn requirement_fits(g: Game, r: usize, q: Requirement) -> bool
    ensures { result ≡ requirement_fits g r q }
{
    if !in_use(g, r, q) {
        return false;
    }
    let a = g.input;
    if !in_sets_fit(q, a.states) {
        return false;
    }
    let b = g.output;
    out_sets_fit(q, b.states)
}
