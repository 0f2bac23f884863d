// One component of the joined graph: which of its positions are won.
#![tactic(auto)]

ghost use Rattle.std.specs.Prelude.{◌≡◌, true, ◌&&◌, ℕ, ◌≤◌, ◌<◌, length};
ghost use Rattle.bits.specs.Member.{has};
ghost use Rattle.theory.specs.Region.{replies};
ghost use Rattle.joint.specs.Solver.{Forced, Safe};
ghost use Rattle.play.specs.Play.{separated_of};
ghost use Rattle.joined_reach.specs.Words.{joined_words, Small};
ghost use Rattle.joined_component.specs.Component.{won, component};
ghost use Rattle.joined_settle.specs.Settle.{Growing, Shrinking, Swept, Grew, Shrank, Unsettled, ComponentSettled};

use game::{Game, InState, OutState};
use joined_reach::{COMPONENT, OutWord, WON};
use sets::ROW_WORDS;

// Whether (i, o) forces what is marked won: every next input has a reply that makes such a position.
fn forces(
    g: Game,
    ins: &[u64; ROW_WORDS],
    outs: &[u64; ROW_WORDS],
    s: &[u64],
    i: InState,
    o: OutState,
) -> bool
    requires { Small g × (i.0 < g.input.states) × (o.0 < g.output.states) × (joined_words ≤ length s.now) × (ins.now ≡ g.input.moves)
        × (outs.now ≡ g.output.moves) }
    ensures { result ≡ replies (separated_of g) (won g s.now) i.0 o.0 }
{
    let moves = joined_reach::output_moves(g, outs, o);
    let next = joined_reach::input_moves(g, ins, i);
    let mut rest = next.0;
    while rest != 0 {
        let j = bits::lowest(rest);
        if !bits::meets(s[WON + j], moves.0) {
            return false;
        }
        rest = bits::without_lowest(rest);
    }
    true
}

// The outputs o of x for which (i, o) forces what is marked won.
fn forcing(
    g: Game,
    ins: &[u64; ROW_WORDS],
    outs: &[u64; ROW_WORDS],
    s: &[u64],
    i: InState,
    x: OutWord,
) -> OutWord
    requires { Small g × (i.0 < g.input.states) × (joined_words ≤ length s.now) × ((o : ℕ) → has x.0 o ≡ true → o < g.output.states)
        × (ins.now ≡ g.input.moves) × (outs.now ≡ g.output.moves) }
    ensures { (o : ℕ) → has result.0 o ≡ (has x.0 o && replies (separated_of g) (won g s.now) i.0 o) }
{
    let mut c: u64 = 0;
    let mut rest = x.0;
    while rest != 0 {
        let o = bits::lowest(rest);
        c = bits::insert_if(c, o, forces(g, ins, outs, s, i, OutState(o)));
        rest = bits::without_lowest(rest);
    }
    OutWord(c)
}

// One sweep over the component that marks each position that forces what is marked. Whether it marked any.
fn add_forced(g: Game, ins: &[u64; ROW_WORDS], outs: &[u64; ROW_WORDS], s: &mut [u64]) -> bool
    requires { Small g × (joined_words ≤ length s.old) × Growing g s.old × (ins.now ≡ g.input.moves) × (outs.now ≡ g.output.moves) }
    ensures { Grew g s.old s.new result }
{
    let mut added = false;
    for i in 0..g.input.states {
        let old = s[WON + i];
        let here = bits::difference(s[COMPONENT + i], old);
        let new = forcing(g, ins, outs, s, InState(i), OutWord(here));
        if new.0 != 0 {
            s[WON + i] = bits::union(old, new.0);
            added = true;
        }
    }
    added
}

// One sweep over the component that takes out each marked position that does not force what is marked. Whether it took any.
fn drop_unsafe(g: Game, ins: &[u64; ROW_WORDS], outs: &[u64; ROW_WORDS], s: &mut [u64]) -> bool
    requires { Small g × (joined_words ≤ length s.old) × Shrinking g s.old × (ins.now ≡ g.input.moves) × (outs.now ≡ g.output.moves) }
    ensures { Shrank g s.old s.new result }
{
    let mut dropped = false;
    for i in 0..g.input.states {
        let old = s[WON + i];
        let here = bits::intersection(s[COMPONENT + i], old);
        let safe = forcing(g, ins, outs, s, InState(i), OutWord(here));
        let unsafe_here = bits::difference(here, safe.0);
        if unsafe_here != 0 {
            s[WON + i] = bits::difference(old, unsafe_here);
            dropped = true;
        }
    }
    dropped
}

// Marks the positions of the component from which what is won behind it can be forced.
fn force(g: Game, ins: &[u64; ROW_WORDS], outs: &[u64; ROW_WORDS], s: &mut [u64])
    requires { Small g × (joined_words ≤ length s.old) × Growing g s.old × (ins.now ≡ g.input.moves) × (outs.now ≡ g.output.moves) }
    ensures { Swept g s.old s.new × Growing g s.new
        × Forced (separated_of g) (component g s.new) (won g s.new) }
{
    while add_forced(g, ins, outs, s) {}
}

// Leaves those positions of the component marked from which the system can stay in it, or in what is won behind it, for ever.
fn keep_safe(g: Game, ins: &[u64; ROW_WORDS], outs: &[u64; ROW_WORDS], s: &mut [u64])
    requires { Small g × (joined_words ≤ length s.old) × Shrinking g s.old × (ins.now ≡ g.input.moves) × (outs.now ≡ g.output.moves) }
    ensures { Swept g s.old s.new × Shrinking g s.new
        × Safe (separated_of g) (component g s.new) (won g s.new) }
{
    while drop_unsafe(g, ins, outs, s) {}
}

// Settles the component, that of (i, o): marks its won positions, all components behind it being settled.
pub fn settle(
    g: Game,
    ins: &[u64; ROW_WORDS],
    outs: &[u64; ROW_WORDS],
    s: &mut [u64],
    i: InState,
    o: OutState,
)
    requires { Small g × (joined_words ≤ length s.old) × Unsettled g i.0 o.0 s.old × (ins.now ≡ g.input.moves) × (outs.now ≡ g.output.moves) }
    ensures { ComponentSettled g s.old s.new }
{
    if joined_component::accepting(g, ins, outs, s, i, o) {
        joined_component::join(g, s, WON);
        keep_safe(g, ins, outs, s);
    } else {
        force(g, ins, outs, s);
    }
}
