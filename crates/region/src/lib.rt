// The winning region, worked out in scratch.
#![tactic(auto)]

ghost use Rattle.std.specs.Prelude.{◌≡◌, ◌≤◌, length};
ghost use Rattle.game.specs.declared.Game.{Game};
ghost use Rattle.sets.specs.Words.{bits_of};
ghost use Rattle.game.specs.Fits.{Fits};
ghost use Rattle.scratch.specs.Scratch.{scratch_length};
ghost use Rattle.scratch.specs.Stored.{NontrivialOf, Laid, Ready};
ghost use Rattle.board.specs.Board.{game_on};
ghost use Rattle.region_dues.specs.Dues.{Serving};
ghost use Rattle.region_rows.specs.Fill.{PastKept};
ghost use Rattle.region.specs.Fill.{Prepared};

use board::Sizes;
use game::InSet;
use region_dues::Servers;
use scratch::Nontrivial;

// Writes all rows, one component after the other.
fn fill(z: Sizes, b: &[u64; board::WORDS], t: Servers, s: &mut [u64], x: Nontrivial)
    ghost g: { Game }
    requires b_value { game_on z b.now ≡ g }
    requires fits { Fits g × Laid g s.old × NontrivialOf g x
        × Serving g t.first t.second }
    ensures { Ready g s.new (bits_of x.inputs.0)
        × PastKept g s.old s.new }
{
    let mut left = InSet(sets::below(z.inputs));
    while !sets::is_empty(left.0) {
        left = region_rows::fill_component(z, b, t, s, x, left);
    }
}

// Works out both closures and the region in scratch. The answer is the states in nontrivial components, which those who read the region need.
pub fn prepare(z: Sizes, b: &[u64; board::WORDS], s: &mut [u64]) -> Nontrivial
    ghost g: { Game }
    requires b_value { game_on z b.now ≡ g }
    requires fits { Fits g × (scratch_length g ≤ length s.old) }
    ensures { Prepared g s.old s.new result }
{
    scratch::close(z, b, s);
    let x = scratch::nontrivial_states(z, b, s);
    fill(z, b, region_dues::served(z, b, s), s, x);
    x
}
