// The game with bars, interlocks: some outputs are barred while the panel is at certain inputs. Which positions are won, and which side wins.
#![tactic(auto)]

ghost use Rattle.std.specs.Prelude.{◌≡◌, true, ◌≤◌, ◌<◌, length, get_or};
ghost use Rattle.finite.specs.Bounded.{all};
ghost use Rattle.sets.specs.Words.{capacity, sets_in, set_count, words_for};
ghost use Rattle.theory.specs.Region.{verdict};
ghost use Rattle.game.specs.Acceptance.{acceptance, accepted, first_failing};
ghost use Rattle.play.specs.Play.{separated_of};
ghost use Rattle.scratch_clearing.specs.Clearing.{cleared};
ghost use Rattle.map_marks.specs.Marks.{MapFilled};
ghost use Rattle.barred.specs.Region.{barred_verdict};
ghost use Rattle.barred_region.specs.Region.{only};
ghost use Rattle.interlock.specs.Bars.{bars as barsOf, barrable as barrableOf, bars_inside, some_barred, one_requirement};
ghost use Rattle.interlock.specs.Bars.{system_wins, RegionFilled, BarredFilled, opens_row};
ghost use Rattle.interlock.specs.Interlock.{barred_words, bar_refusals, BarredMap, BarredJudged};

use game::{Game, InState, Refusal};

// The side that wins.
#[derive(Clone, Copy, PartialEq, Eq)]
pub enum Side {
    System,
    Environment,
}

// How many words of scratch the calls take.
const WORDS: usize = 4096;

// ---- what is lent

// The outputs below this number may be barred with set number i of the list: none with one that the game has no input for.
fn barrable(g: Game, i: usize) -> usize
    ensures { result ≡ barrableOf g i }
{
    if i < g.input.states {
        return g.output.states;
    }
    0
}

// Whether every barred pair is one of the graphs.
fn bars_inside(g: Game, bars: &[u64]) -> bool
    ensures { result ≡ bars_inside g bars.now }
{
    let n = sets::parts(bars);
    for i in 0..n {
        if !sets::within(sets::part(bars, i), barrable(g, i)) {
            return false;
        }
    }
    true
}

// Whether some pair is barred.
fn some_barred(bars: &[u64]) -> bool
    ensures { result ≡ some_barred bars.now }
{
    let n = sets::parts(bars);
    for i in 0..n {
        if !sets::is_empty(sets::part(bars, i)) {
            return true;
        }
    }
    false
}

// Whether no pair is barred, or the game has one requirement.
fn one_requirement(g: Game, bars: &[u64]) -> bool
    ensures { result ≡ one_requirement g bars.now }
{
    if some_barred(bars) {
        return g.k == 1;
    }
    true
}

// The first fault of the bars and of scratch, which has so many words.
fn fault(g: Game, bars: &[u64], words: usize) -> Result<(), Refusal>
    requires { acceptance g ≡ accepted }
    ensures { result ≡ first_failing (bar_refusals g bars.now words) }
{
    if !bars_inside(g, bars) {
        return Err(Refusal::BarOutside);
    }
    if !one_requirement(g, bars) {
        return Err(Refusal::NotOneRequirement);
    }
    if bars.len() < sets::words(g.input.states) {
        return Err(Refusal::ShortScratch);
    }
    if words < WORDS {
        return Err(Refusal::ShortScratch);
    }
    Ok(())
}

// ---- the map

// Writes the rows of the winning region that scratch holds.
fn write_map(g: Game, s: &[u64], map: &mut [u64])
    requires { (g.input.states ≤ set_count s.now) × (g.input.states ≤ set_count map.old) }
    ensures { RegionFilled g (sets_in s.now) map.old map.new }
{
    for i in 0..g.input.states {
        sets::put(map, i, sets::row(s, i));
    }
}

// Marks the positions that are won with bars.
fn mark_barred(g: Game, bars: &[u64], scratch: &mut [u64], map: &mut [u64])
    requires { (acceptance g ≡ accepted) × (words_for g.input.states ≤ length bars.now) × (barred_words ≤ length scratch.old)
        × (words_for g.input.states ≤ length map.old) × (some_barred bars.now ≡ true) }
    ensures { (scratch.new ≡ cleared barred_words scratch.old)
        × BarredFilled g bars.now map.old map.new }
{
    barred_region::keep(g, bars, scratch);
    write_map(g, scratch, map);
    scratch_clearing::clear(scratch, WORDS);
}

// Marks the positions that are won without bars.
fn mark_unbarred(g: Game, scratch: &mut [u64], map: &mut [u64])
    requires { (acceptance g ≡ accepted) × (barred_words ≤ length scratch.old) × (words_for g.input.states ≤ length map.old) }
    ensures { (scratch.new ≡ cleared barred_words scratch.old) × MapFilled g map.old map.new }
{
    let _ = map::won_map(g, scratch, map);
    scratch_clearing::clear(scratch, WORDS);
}

// Marks the won positions of an accepted game, bars and buffers being as they must be.
fn mark(g: Game, bars: &[u64], scratch: &mut [u64], map: &mut [u64])
    requires { (acceptance g ≡ accepted) × (words_for g.input.states ≤ length bars.now) × (barred_words ≤ length scratch.old)
        × (words_for g.input.states ≤ length map.old) }
    ensures { (scratch.new ≡ cleared barred_words scratch.old)
        × BarredFilled g bars.now map.old map.new }
{
    if some_barred(bars) {
        mark_barred(g, bars, scratch, map);
        return;
    }
    mark_unbarred(g, scratch, map);
}

// The map of an accepted game.
fn map_accepted(g: Game, bars: &[u64], scratch: &mut [u64], map: &mut [u64]) -> Result<(), Refusal>
    requires { acceptance g ≡ accepted }
    ensures { BarredMap g bars.now scratch.old scratch.new map.old map.new result }
{
    fault(g, bars, scratch.len())?;
    if map.len() < sets::words(g.input.states) {
        return Err(Refusal::ShortScratch);
    }
    mark(g, bars, scratch, map);
    Ok(())
}

// Marks the won positions of a game with bars: one set of outputs for each input. (SPEC 15.1, 15.2, 15.3)
pub fn barred_map(
    g: Game,
    bars: &[u64],
    scratch: &mut [u64],
    map: &mut [u64],
) -> Result<(), Refusal>
    ensures { BarredMap g bars.now scratch.old scratch.new map.old map.new result }
{
    acceptance::accept(g)?;
    map_accepted(g, bars, scratch, map)
}

// ---- the verdict

// Whether i is not initial, or some initial output is won with it; scratch holds the winning region.
fn opens(g: Game, s: &[u64], i: InState) -> bool
    requires { (g.input.states ≤ capacity) × (i.0 < g.input.states) × (g.input.states ≤ set_count s.now) }
    ensures { result ≡ opens_row g (get_or (sets_in s.now) i.0 0) i.0 }
{
    let first = game::in_initial(g);
    if !sets::member(first.0, i.0) {
        return true;
    }
    let initial = game::out_initial(g);
    sets::meets(initial.0, sets::row(s, i.0))
}

// Whether every initial input opens.
fn all_open(g: Game, s: &[u64]) -> bool
    requires { (g.input.states ≤ capacity) × (g.input.states ≤ set_count s.now) }
    ensures { result ≡ all g.input.states (λ i. opens_row g (get_or (sets_in s.now) i 0) i) }
{
    let n = g.input.states;
    for i in 0..n {
        if !opens(g, s, InState(i)) {
            return false;
        }
    }
    true
}

// Whether the system wins with bars.
fn wins_barred(g: Game, bars: &[u64], scratch: &mut [u64]) -> bool
    requires { (acceptance g ≡ accepted) × (words_for g.input.states ≤ length bars.now) × (barred_words ≤ length scratch.old) }
    ensures { (result ≡ barred_verdict (separated_of g) (barsOf bars.now) (only g))
        × (scratch.new ≡ cleared barred_words scratch.old) }
{
    barred_region::keep(g, bars, scratch);
    let r = all_open(g, scratch);
    scratch_clearing::clear(scratch, WORDS);
    r
}

// Whether the system wins without bars.
fn wins_unbarred(g: Game, scratch: &mut [u64]) -> bool
    requires { (acceptance g ≡ accepted) × (barred_words ≤ length scratch.old) }
    ensures { (result ≡ verdict (separated_of g)) × (scratch.new ≡ cleared barred_words scratch.old) }
{
    let mut b: [u64; board::WORDS] = [0; board::WORDS];
    let z = board::lay(g, &mut b);
    let x = region::prepare(z, &b, scratch);
    let r = region_verdict::system_wins(g, scratch, x.inputs);
    scratch_clearing::clear(scratch, WORDS);
    r
}

// Whether the system wins.
fn wins(g: Game, bars: &[u64], scratch: &mut [u64]) -> bool
    requires { (acceptance g ≡ accepted) × (words_for g.input.states ≤ length bars.now) × (barred_words ≤ length scratch.old) }
    ensures { (result ≡ system_wins g bars.now) × (scratch.new ≡ cleared barred_words scratch.old) }
{
    if some_barred(bars) {
        return wins_barred(g, bars, scratch);
    }
    wins_unbarred(g, scratch)
}

// The verdict of an accepted game.
fn judge(g: Game, bars: &[u64], scratch: &mut [u64]) -> Result<Side, Refusal>
    requires { acceptance g ≡ accepted }
    ensures { BarredJudged g bars.now scratch.old scratch.new result }
{
    fault(g, bars, scratch.len())?;
    if wins(g, bars, scratch) {
        return Ok(Side::System);
    }
    Ok(Side::Environment)
}

// Which side wins a game with bars. (SPEC 15.1, 15.2, 15.3)
pub fn barred_verdict(g: Game, bars: &[u64], scratch: &mut [u64]) -> Result<Side, Refusal>
    ensures { BarredJudged g bars.now scratch.old scratch.new result }
{
    acceptance::accept(g)?;
    judge(g, bars, scratch)
}
