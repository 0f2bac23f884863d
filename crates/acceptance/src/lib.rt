// Whether a game is accepted: a test for each refusal code, and the first that fails.
#![tactic(auto)]

ghost use Rattle.std.specs.Prelude.{◌≡◌, true, [], ◌∷◌, ◌≤◌};
ghost use Rattle.sets.specs.Words.{capacity, set_count};
ghost use Rattle.game.specs.Acceptance.{counts_fit, states_in_count, initials_exist, lengths_fit, sets_fit, first_failing};
ghost use Rattle.game.specs.declared.Refusal.TheVariants.{CountOutOfRange, StatePastCount, NoInitialState, TooManyRequirements, TooManySets, BadSet};
ghost use Rattle.game.specs.Numbers.{Accepts};

use game::{Acceptance, Game, Refusal};

fn counts_fit(g: Game) -> bool
    ensures { result ≡ counts_fit g }
{
    if !accept_graph::count_fits(g.input) {
        return false;
    }
    accept_graph::count_fits(g.output)
}

fn states_in_count<'a>(g: Game, ins: &'a [u64], outs: &'a [u64]) -> bool
    requires { (ins.now ≡ g.input.moves) × (outs.now ≡ g.output.moves) × (capacity ≤ set_count ins.now) × (capacity ≤ set_count outs.now) }
    ensures { result ≡ states_in_count g }
{
    if !accept_graph::states_fit(g.input, ins) {
        return false;
    }
    accept_graph::states_fit(g.output, outs)
}

fn initials_exist(g: Game) -> bool
    ensures { result ≡ initials_exist g }
{
    if !accept_graph::has_initial(g.input) {
        return false;
    }
    accept_graph::has_initial(g.output)
}

fn lengths_fit(g: Game) -> bool
    ensures { result ≡ lengths_fit g }
{
    for p in 0..8 {
        if !accept_requirement::few_sets(g.requirements[p]) {
            return false;
        }
    }
    true
}

fn sets_fit(g: Game) -> bool
    ensures { result ≡ sets_fit g }
{
    for r in 0..8 {
        if !accept_requirement::requirement_fits(g, r, g.requirements[r]) {
            return false;
        }
    }
    true
}

// Refused with the number of the first test that fails.
fn first_failing(
    counts: bool,
    states: bool,
    initials: bool,
    few: bool,
    lengths: bool,
    sets: bool,
) -> Acceptance
    ensures { result ≡ first_failing ((CountOutOfRange, counts) ∷ (StatePastCount, states) ∷ (NoInitialState, initials)
        ∷ (TooManyRequirements, few) ∷ (TooManySets, lengths) ∷ (BadSet, sets) ∷ []) }
{
    if !counts {
        return Err(Refusal::CountOutOfRange);
    }
    if !states {
        return Err(Refusal::StatePastCount);
    }
    if !initials {
        return Err(Refusal::NoInitialState);
    }
    if !few {
        return Err(Refusal::TooManyRequirements);
    }
    if !lengths {
        return Err(Refusal::TooManySets);
    }
    if !sets {
        return Err(Refusal::BadSet);
    }
    Ok(())
}

// Whether the game is accepted; else the lowest code whose condition holds. Every test is safe on every record. The rows of both graphs are lent besides
// the game, so that they are read where the caller has them.
pub fn accept_lent<'a>(g: Game, ins: &'a [u64], outs: &'a [u64]) -> Acceptance
    requires { (ins.now ≡ g.input.moves) × (outs.now ≡ g.output.moves) × (capacity ≤ set_count ins.now) × (capacity ≤ set_count outs.now) }
    ensures { Accepts g result }
{
    first_failing(
        counts_fit(g),
        states_in_count(g, ins, outs),
        initials_exist(g),
        g.k <= 8,
        lengths_fit(g),
        sets_fit(g),
    )
}

// The same for a caller that lends no rows. Only they are copied, where a part of g that is lent would have all of g copied. (SPEC 9.1, 9.2)
pub fn accept(g: Game) -> Acceptance
    ensures { Accepts g result }
{
    let ins = g.input.moves;
    let outs = g.output.moves;
    accept_lent(g, &ins, &outs)
}
