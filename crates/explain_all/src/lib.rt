// What made each position won or lost: a room with an entry a position, from one working out of the region.
#![tactic(auto)]

ghost use Rattle.std.specs.Prelude.{◌≡◌, ◌≤◌, ◌<◌, length};
ghost use Rattle.sets.specs.Words.{bits_of};
ghost use Rattle.game.specs.Acceptance.{acceptance, accepted};
ghost use Rattle.game.specs.Fits.{Fits};
ghost use Rattle.play.specs.Play.{separated_of};
ghost use Rattle.scratch_clearing.specs.Clearing.{cleared};
ghost use Rattle.scratch.specs.Scratch.{scratch_length};
ghost use Rattle.scratch.specs.Stored.{Ready};
ghost use Rattle.grounds.specs.Ground.{ground};
ghost use Rattle.map_marks.specs.Mapped.{made};
ghost use Rattle.ground_search.specs.Asked.{PositionAsked};
ghost use Rattle.explain_all.specs.Entry.{told_number, told_name, told_entry, ground_entry};
ghost use Rattle.explain_all.specs.All.{positions as positions_of, all_fits, grounds_after, ExplainedAll};

use game::{Game, InSet, InState, OutState, Refusal};
use ground_search::Explanation;

// The ground's number, 1 to 8 in the order of `Explanation`.
fn number(x: Explanation) -> usize
    ensures { result ≡ told_number x }
{
    match x {
        Explanation::InputStuck => 1,
        Explanation::ByReplies => 2,
        Explanation::AtHome(_) => 3,
        Explanation::OutputStuck => 4,
        Explanation::Unanswered(_) => 5,
        Explanation::ByWayOut(_) => 6,
        Explanation::Unserved(_, _) => 7,
        Explanation::PushedOn => 8,
    }
}

// What the ground names, as one number; 0 where it names nothing.
fn name(x: Explanation) -> usize
    requires { told_name x < 4096 }
    ensures { result ≡ told_name x }
{
    match x {
        Explanation::InputStuck => 0,
        Explanation::ByReplies => 0,
        Explanation::AtHome(d) => d.0,
        Explanation::OutputStuck => 0,
        Explanation::Unanswered(j) => j.0,
        Explanation::ByWayOut(j) => j.0,
        Explanation::Unserved(k, n) => k * 4 + n,
        Explanation::PushedOn => 0,
    }
}

// The entry that stands for a ground.
fn entry(x: Explanation) -> u16
    requires { told_name x < 4095 }
    ensures { result ≡ told_entry x }
{
    (name(x) * 16 + number(x)) as u16
}

// The entry of a position; c are the inputs in nontrivial components.
fn position_entry(g: Game, s: &[u64], c: InSet, i: InState, o: OutState) -> u16
    requires { PositionAsked g s.now c i o }
    ensures { result ≡ ground_entry (ground (separated_of g) i.0 o.0) }
{
    entry(ground_search::find(g, s, c, i, o))
}

// How many positions the game has.
fn positions(g: Game) -> usize
    requires { Fits g }
    ensures { result ≡ positions_of g }
{
    g.input.states * g.output.states
}

// Writes an entry a position: position number p is that of input p / outputs and output p % outputs.
fn fill(g: Game, s: &[u64], c: InSet, n: usize, grounds: &mut [u16])
    requires { Ready g s.now (bits_of c.0) × (n ≡ positions_of g) × (n ≤ length grounds.old) }
    ensures { grounds.new ≡ grounds_after g made grounds.old }
{
    let m = g.output.states;
    for p in 0..n {
        let e = position_entry(g, s, c, InState(p / m), OutState(p % m));
        grounds[p] = e;
    }
}

// Whether scratch of so many words and a room of so many entries are long enough.
fn fits(g: Game, words: usize, room: usize) -> bool
    requires { acceptance g ≡ accepted }
    ensures { result ≡ all_fits g words room }
{
    if words < scratch::length(g) {
        return false;
    }
    positions(g) <= room
}

// The grounds of all positions of an accepted game. Clears scratch.
fn explain_positions(g: Game, scratch: &mut [u64], grounds: &mut [u16])
    requires { Fits g × (scratch_length g ≤ length scratch.old) × (positions_of g ≤ length grounds.old) }
    ensures { (scratch.new ≡ cleared (scratch_length g) scratch.old)
        × (grounds.new ≡ grounds_after g made grounds.old) }
{
    let mut b: [u64; board::WORDS] = [0; board::WORDS];
    let z = board::lay(g, &mut b);
    let x = region::prepare(z, &b, scratch);
    fill(g, scratch, x.inputs, positions(g), grounds);
    scratch_clearing::clear(scratch, scratch::length(g));
}

// Tells of every position what made it won or lost, as `explain` does of one. The region is worked out once. (SPEC 14.6)
pub fn explain_all(g: Game, scratch: &mut [u64], grounds: &mut [u16]) -> Result<(), Refusal>
    ensures { ExplainedAll g scratch.old scratch.new grounds.old grounds.new result }
{
    acceptance::accept(g)?;
    if !fits(g, scratch.len(), grounds.len()) {
        return Err(Refusal::ShortScratch);
    }
    explain_positions(g, scratch, grounds);
    Ok(())
}
