// The winning region as a map: one set of outputs for each input.
#![tactic(auto)]

ghost use Rattle.std.specs.Prelude.{◌≡◌, ◌≤◌, ◌<◌};
ghost use Rattle.sets.specs.Words.{bits_of, sets_in, set_count};
ghost use Rattle.game.specs.Acceptance.{acceptance, accepted};
ghost use Rattle.game.specs.declared.Game.{Game};
ghost use Rattle.board.specs.Board.{game_on};
ghost use Rattle.scratch.specs.Stored.{WonKept, Ready};
ghost use Rattle.map_marks.specs.Marks.{map_row, MapFilled};
ghost use Rattle.map.specs.Map.{map_fits, MapMade};

use board::Sizes;
use game::{Game, InSet, InState, Refusal};
use scratch::WonRow;

// The outputs that are won with input i; c are the inputs in nontrivial components, k is what is kept of the inputs before.
fn map_row(z: Sizes, b: &[u64; board::WORDS], s: &[u64], c: InSet, i: InState, k: WonRow) -> WonRow
    ghost g: { Game }
    requires b_value { game_on z b.now ≡ g }
    requires ready { Ready g s.now (bits_of c.0) × (i.0 < z.inputs) × WonKept (sets_in s.now) z.inputs z.outputs k }
    ensures { WonKept (sets_in s.now) z.inputs z.outputs result × (bits_of result.row.0 ≡ map_row g i.0) }
{
    scratch::won_next(s, z.inputs, z.outputs, c, i, k)
}

// Writes the map.
fn fill_map(z: Sizes, b: &[u64; board::WORDS], s: &[u64], c: InSet, map: &mut [u64])
    ghost g: { Game }
    requires b_value { game_on z b.now ≡ g }
    requires ready { Ready g s.now (bits_of c.0) × (z.inputs ≤ set_count map.old) }
    ensures { MapFilled g map.old map.new }
{
    let mut k = scratch::won_first();
    for i in 0..z.inputs {
        k = map_row(z, b, s, c, InState(i), k);
        let won = k.row;
        sets::put(map, i, won.0);
    }
}

// Whether scratch of so many words and a map of so many are long enough.
fn fits(g: Game, words: usize, room: usize) -> bool
    requires { acceptance g ≡ accepted }
    ensures { result ≡ map_fits g words room }
{
    if words < scratch::length(g) {
        return false;
    }
    sets::words(g.input.states) <= room
}

// Marks the won positions: one set of outputs for each input. The game is laid out on a board once, from which the region is worked out.
// (SPEC 4.5, 7.5, 7.6)
pub fn won_map(g: Game, scratch: &mut [u64], map: &mut [u64]) -> Result<(), Refusal>
    ensures { MapMade g scratch.old scratch.new map.old map.new result }
{
    let mut b: [u64; board::WORDS] = [0; board::WORDS];
    let z = board::lay(g, &mut b);
    acceptance::accept_lent(g, board::in_rows(&b), board::out_rows(&b))?;
    if !fits(g, scratch.len(), map.len()) {
        return Err(Refusal::ShortScratch);
    }
    let x = region::prepare(z, &b, scratch);
    fill_map(z, &b, scratch, x.inputs, map);
    scratch_clearing::clear(scratch, scratch::length(g));
    Ok(())
}
