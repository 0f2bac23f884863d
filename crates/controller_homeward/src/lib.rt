// Who has a home where, and the rows outside it: the way home.
#![tactic(auto)]

ghost use Rattle.std.specs.Prelude.{◌≡◌, ℕ, ◌+◌, ◌≤◌, ◌<◌, length, true, ◌&&◌};
ghost use Rattle.sets.specs.Words.{capacity, bits_of, sets_in, set_count};
ghost use Rattle.scratch.specs.Scratch.{scratch_sets};
ghost use Rattle.play.specs.Play.{separated_of};
ghost use Rattle.bits.specs.Member.{has, pack, within};
ghost use Rattle.controller_rows.specs.Writes.{length_of, has_home_at};
ghost use Rattle.region_runs.specs.Runs.{Runs};
ghost use Rattle.controller_homeward.specs.Homes.{lowest_is, settled_at, lower_at, alike_at, reaches_at, avoids_at};
ghost use Rattle.controller_table.specs.Filled.{ControllerFilled, Away as AwayRow, Given, HomeOf};

use controller_rows::{Home, Size, leaders, rows, sorts};
use game::{Game, InSet, InState, OutSet, OutState};

// Whether the lowest home of a row in reach is d.
fn home_is(row: OutSet, reach: OutSet, d: OutState) -> bool
    ensures { result ≡ lowest_is (bits_of row.0) (bits_of reach.0) d.0 }
{
    sets::lowest(sets::intersection(row.0, reach.0)) == d.0
}

// The inputs of c whose lowest home in reach is d.
fn settled(s: &[u64], n: usize, c: InSet, reach: OutSet, d: OutState) -> InSet
    requires { (n ≤ capacity) × (n + n ≤ set_count s.now) }
    ensures { bits_of result.0 ≡ pack n (settled_at (sets_in s.now) n (bits_of c.0) (bits_of reach.0) d.0) }
{
    let mut x = sets::empty();
    for j in sets::intersection(c.0, sets::below(n)) {
        let row = scratch::region_row(s, n, InState(j));
        x = sets::insert_if(x, j, home_is(row, reach, d));
    }
    InSet(x)
}

// The inputs of c, those in nontrivial components, whose home at output o is d. What is asked of a row is asked once for each run; `firsts` begin them.
pub fn inputs_with_home(
    s: &[u64],
    n: usize,
    c: InSet,
    firsts: InSet,
    o: OutState,
    d: OutState,
) -> InSet
    requires { (n ≤ capacity) × (o.0 < capacity) × (scratch_sets n o.0 < set_count s.now)
        × Runs (sets_in s.now) n (bits_of c.0) (bits_of firsts.0) }
    ensures { bits_of result.0 ≡ pack n (has_home_at (sets_in s.now) n (bits_of c.0) o.0 d.0) }
{
    let reach = scratch::out_reach(s, n, o);
    let x = settled(s, n, firsts, reach, d);
    region_runs::spread(n, c, firsts, x)
}

// The homes of input j below d.
fn lower(s: &[u64], n: usize, j: InState, d: OutState) -> OutSet
    requires { (n ≤ capacity) × (j.0 < n) × (n + n ≤ set_count s.now) × (d.0 < capacity) }
    ensures { bits_of result.0 ≡ lower_at (sets_in s.now) n d.0 j.0 }
{
    let row = scratch::region_row(s, n, j);
    OutSet(sets::intersection(row.0, sets::below(d.0)))
}

// The inputs of x, all below n, whose homes below d are these.
fn alike(s: &[u64], n: usize, x: InSet, homes: OutSet, d: OutState) -> InSet
    requires { (n ≤ capacity) × (n + n ≤ set_count s.now) × (d.0 < capacity) × (within (bits_of x.0) n ≡ true) }
    ensures { bits_of result.0 ≡ pack n (λ j. has (bits_of x.0) j && alike_at (sets_in s.now) n d.0 (bits_of homes.0) j) }
{
    let mut y = sets::empty();
    for j in x.0 {
        let own = lower(s, n, InState(j), d);
        y = sets::insert_if(y, j, sets::same(own.0, homes.0));
    }
    InSet(y)
}

// The same, x being inputs of c: asked of each where each begins a run, and else once for each run.
fn alike_in(
    s: &[u64],
    n: usize,
    c: InSet,
    firsts: InSet,
    x: InSet,
    homes: OutSet,
    d: OutState,
) -> InSet
    requires { (n ≤ capacity) × (n + n ≤ set_count s.now) × (d.0 < capacity) × (within (bits_of x.0) n ≡ true)
        × Runs (sets_in s.now) n (bits_of c.0) (bits_of firsts.0) × ((j : ℕ) → has (bits_of x.0) j ≡ true → has (bits_of c.0) j ≡ true) }
    ensures { bits_of result.0 ≡ pack n (λ j. has (bits_of x.0) j && alike_at (sets_in s.now) n d.0 (bits_of homes.0) j) }
{
    if sets::is_subset(x.0, firsts.0) {
        return alike(s, n, x, homes, d);
    }
    let y = alike(s, n, firsts, homes, d);
    let z = region_runs::spread(n, c, firsts, y);
    InSet(sets::intersection(x.0, z.0))
}

// The outputs that reach d.
fn reaching(s: &[u64], n: usize, m: usize, d: OutState) -> OutSet
    requires { (n ≤ capacity) × (m ≤ capacity) × (d.0 < capacity) × (scratch_sets n m ≤ set_count s.now) }
    ensures { bits_of result.0 ≡ pack m (reaches_at (sets_in s.now) n d.0) }
{
    let mut x = sets::empty();
    for o in 0..m {
        let reach = scratch::out_reach(s, n, OutState(o));
        x = sets::insert_if(x, o, sets::member(reach.0, d.0));
    }
    OutSet(x)
}

// The outputs of x, all below m, that reach none of the homes. Each reaches itself, so no home is asked.
fn nearest(s: &[u64], n: usize, m: usize, x: OutSet, homes: OutSet) -> OutSet
    requires { (n ≤ capacity) × (m ≤ capacity) × (scratch_sets n m ≤ set_count s.now) × (within (bits_of x.0) m ≡ true)
        × ((o : ℕ) → o < m → reaches_at (sets_in s.now) n o o ≡ true) }
    ensures { (o : ℕ) → has (bits_of result.0) o ≡ (has (bits_of x.0) o && avoids_at (sets_in s.now) n (bits_of homes.0) o) }
{
    let mut y = sets::empty();
    for o in sets::difference(x.0, homes.0) {
        let reach = scratch::out_reach(s, n, OutState(o));
        y = sets::insert_if(y, o, !sets::meets(reach.0, homes.0));
    }
    OutSet(y)
}

// The rows outside a home: the way to it. An input of c has its home there at an output that reaches it and no lower home of that input; so the way is
// searched once for the inputs with the same lower homes, among such outputs. Those that reach the home are looked for once. The rows of the output graph,
// `outs`, are read where they stand.
pub fn approach(
    g: Game,
    outs: &[u64; sets::ROW_WORDS],
    s: &[u64],
    room: &mut [u16],
    z: Size,
    c: InSet,
    firsts: InSet,
    w: Home,
)
    requires { Given g z s.now (bits_of c.0) × HomeOf (separated_of g) w × (length_of z ≤ length room.old) × (outs.now ≡ g.output.moves)
        × Runs (sets_in s.now) z.inputs (bits_of c.0) (bits_of firsts.0) }
    ensures { ControllerFilled (separated_of g) z (AwayRow (separated_of g) w.state.0) room.old room.new }
{
    let n = z.inputs;
    let y = rows::layout_of(z);
    let d = w.state;
    let inputs = w.inputs;
    let around = reaching(s, n, g.output.states, d);
    let mut rest = sets::intersection(inputs.0, c.0);
    while !sets::is_empty(rest) {
        let j = sets::lowest(rest);
        let homes = lower(s, n, InState(j), d);
        let group = alike_in(s, n, c, firsts, InSet(rest), homes, d);
        let inside = nearest(s, n, g.output.states, around, homes);
        let component = w.component;
        let over = leaders::columns_of(z, group);
        sorts::approach(outs, room, y, inside, component, over);
        rest = sets::difference(rest, group.0);
    }
}
