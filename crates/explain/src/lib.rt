// What made a position won or lost.
#![tactic(auto)]

ghost use Rattle.std.specs.Prelude.{◌≡◌, ◌≤◌, ◌<◌, length};
ghost use Rattle.game.specs.Acceptance.{acceptance, accepted};
ghost use Rattle.game.specs.Fits.{Fits};
ghost use Rattle.play.specs.Play.{separated_of};
ghost use Rattle.scratch_clearing.specs.Clearing.{cleared};
ghost use Rattle.scratch.specs.Scratch.{scratch_length};
ghost use Rattle.grounds.specs.Ground.{ground};
ghost use Rattle.ground_search.specs.Told.{told};
ghost use Rattle.explain.specs.Explain.{Explained};

use game::{Game, InState, OutState, Refusal};
use ground_search::Explanation;

// The ground of a position of an accepted game. Clears scratch.
fn explain_position(g: Game, scratch: &mut [u64], i: InState, o: OutState) -> Explanation
    requires { Fits g × (scratch_length g ≤ length scratch.old) × (i.0 < g.input.states) × (o.0 < g.output.states) }
    ensures { (scratch.new ≡ cleared (scratch_length g) scratch.old)
        × (result ≡ told (ground (separated_of g) i.0 o.0)) }
{
    let mut b: [u64; board::WORDS] = [0; board::WORDS];
    let z = board::lay(g, &mut b);
    let x = region::prepare(z, &b, scratch);
    let r = ground_search::find(g, scratch, x.inputs, i, o);
    scratch_clearing::clear(scratch, scratch::length(g));
    r
}

// The ground of a position, where the game is accepted.
fn explain_accepted(
    g: Game,
    scratch: &mut [u64],
    i: InState,
    o: OutState,
) -> Result<Explanation, Refusal>
    requires { acceptance g ≡ accepted }
    ensures { Explained g scratch.old scratch.new i o result }
{
    if i.0 >= g.input.states {
        return Err(Refusal::NoPosition);
    }
    if o.0 >= g.output.states {
        return Err(Refusal::NoPosition);
    }
    if scratch.len() < scratch::length(g) {
        return Err(Refusal::ShortScratch);
    }
    Ok(explain_position(g, scratch, i, o))
}

// Tells what made the position of input i and output o won or lost: the first ground that fits, with the lowest numbers. (SPEC 14.1, 14.2)
pub fn explain(
    g: Game,
    scratch: &mut [u64],
    i: InState,
    o: OutState,
) -> Result<Explanation, Refusal>
    ensures { Explained g scratch.old scratch.new i o result }
{
    acceptance::accept(g)?;
    explain_accepted(g, scratch, i, o)
}
