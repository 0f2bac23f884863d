// Whether inputs of one component have the same rows in a table of the full layout. An entry is compared with that of its component's smallest input.
// Eight words hold the smallest inputs for a part of the inputs: the table is gone through once for each part, row after row.
#![tactic(auto)]

ghost use Rattle.std.specs.Prelude.{◌≡◌, ◌⊎◌, ℕ, ◌+◌, ◌*◌, ◌≤◌, ◌<◌, length, get_or};
ghost use Rattle.bits.specs.Member.{pack};
ghost use Rattle.sets.specs.Words.{capacity, bits_of};
ghost use Rattle.game.specs.Acceptance.{acceptance, accepted};
ghost use Rattle.play.specs.Play.{separated_of};
ghost use Rattle.compact.specs.Rank.{leads};
ghost use Rattle.compact.specs.Compact.{full_length};
ghost use Rattle.compact.specs.Moving.{rows_fit};
ghost use Rattle.compact_checks.specs.Parts.{part_size, row_agrees, part_fits, Marked};
ghost use Rattle.compact_checks.specs.Firsts.{Firsts};

use game::{Game, InSet, InState};
use sets::Set;

// How many inputs a part has at most.
const PART: usize = 64;

// Whether the entries of `count` inputs from `part` on are those of the inputs named by firsts, in the row number that begins at `row`. The loop has no way out
// in the middle: most tables fit, and without one a table is moved in a sixth less time.
fn row_fits(table: &[u16], row: usize, part: usize, count: usize, firsts: &[u8; PART]) -> bool
    requires { (count ≤ part_size) × (row + part + count ≤ length table.now)
        × ((k : ℕ) → k < count → row + get_or firsts.now k 0 < length table.now) }
    ensures { result ≡ row_agrees table.now firsts.now row part count }
{
    let mut same = true;
    for k in 0..count {
        let s = usize::from(firsts[k]);
        if table[row + part + k] != table[row + s] {
            same = false;
        }
    }
    same
}

// The same of every row number.
fn part_fits(
    table: &[u16],
    inputs: usize,
    rows: usize,
    part: usize,
    count: usize,
    firsts: &[u8; PART],
) -> bool
    requires { (count ≤ part_size) × (part + count ≤ inputs) × (inputs + rows * inputs ≤ length table.now)
        × ((k : ℕ) → k < count → get_or firsts.now k 0 < inputs) }
    ensures { result ≡ part_fits table.now firsts.now inputs rows part count }
{
    for x in 0..rows {
        if !row_fits(table, inputs + x * inputs, part, count, firsts) {
            return false;
        }
    }
    true
}

// Names s for those of the inputs from `part` on that are in c.
fn mark(firsts: &mut [u8; PART], part: usize, count: usize, c: Set, s: u8)
    requires { (count ≤ part_size) × (part + count ≤ capacity) × (length firsts.old ≡ part_size) }
    ensures { Marked part count (bits_of c) s firsts.old firsts.new }
{
    let low = sets::intersection(c, sets::below(part + count));
    for t in sets::difference(low, sets::below(part)) {
        firsts[t - part] = s;
    }
}

// The smallest input of the component of each of `count` inputs from `part` on.
fn name_firsts(g: Game, leaders: InSet, part: usize, count: usize, firsts: &mut [u8; PART])
    requires { (acceptance g ≡ accepted) × (bits_of leaders.0 ≡ pack g.input.states (leads (separated_of g))) × (count ≤ part_size)
        × (part + count ≤ g.input.states) × (length firsts.old ≡ part_size) }
    ensures { Firsts g part count firsts.new }
{
    let n = g.input.states;
    let places = graph_ranks::crossings(g);
    for j in 0..n {
        if sets::member(leaders.0, j) {
            let c = graph_ranks::component(&g.input.moves, n, places, InState(j));
            mark(firsts, part, count, c.0, j as u8);
        }
    }
}

// How many of n inputs are in one part.
fn part_length(n: usize) -> usize
    ensures { (result ≤ part_size) × (result ≤ n) × ((result ≡ part_size) ⊎ (result ≡ n)) }
{
    if n < PART {
        return n;
    }
    PART
}

// Whether no two inputs of one component differ in a row, part after part of the inputs.
fn parts_fit(g: Game, leaders: InSet, table: &[u16]) -> bool
    requires { (acceptance g ≡ accepted) × (bits_of leaders.0 ≡ pack g.input.states (leads (separated_of g)))
        × (length table.now ≡ full_length (separated_of g)) }
    ensures { result ≡ rows_fit (separated_of g) table.now }
{
    let n = g.input.states;
    let rows = g.output.states * table_sizes::controller_counters(g);
    let mut firsts: [u8; PART] = [0; PART];
    let mut part: usize = 0;
    while part < n {
        let count = part_length(n - part);
        name_firsts(g, leaders, part, count, &mut firsts);
        if !part_fits(table, n, rows, part, count, &firsts) {
            return false;
        }
        part += PART;
    }
    true
}

// The same, the inputs that lead their components being given. Where every input has a component of its own nothing need be compared.
pub fn rows_fit(g: Game, leaders: InSet, table: &[u16]) -> bool
    requires { (acceptance g ≡ accepted) × (bits_of leaders.0 ≡ pack g.input.states (leads (separated_of g)))
        × (length table.now ≡ full_length (separated_of g)) }
    ensures { result ≡ rows_fit (separated_of g) table.now }
{
    if sets::same(leaders.0, sets::below(g.input.states)) {
        return true;
    }
    parts_fit(g, leaders, table)
}
