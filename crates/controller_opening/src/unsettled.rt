// The rows of inputs with no home in reach.
ghost use Rattle.std.specs.Prelude.{◌≡◌, ℕ, ◌+◌, ◌≤◌, ◌<◌, length};
ghost use Rattle.bits.specs.Member.{has, pack};
ghost use Rattle.sets.specs.Words.{capacity, bits_of, sets_in, set_count};
ghost use Rattle.scratch.specs.Scratch.{scratch_sets};
ghost use Rattle.scratch.specs.Stored.{row_at, out_reach_at};
ghost use Rattle.region_runs.specs.Runs.{Runs};
ghost use Rattle.controller_rows.specs.Writes.{Table, settles_at, PlainRow, Plain, Plains};

use controller_rows::{Size, rows};
use game::{InSet, InState, OutSet, OutState};
use table_layout::Other;

// The inputs of x below n with a home in reach, where they are in nontrivial components: the row that scratch keeps of one holds its homes.
fn settling(s: &[u64], n: usize, x: InSet, reach: OutSet) -> InSet
    requires { (n ≤ capacity) × (n + n ≤ set_count s.now) }
    ensures { bits_of result.0 ≡ pack n (λ j. settles_at (bits_of x.0) j (row_at (sets_in s.now) n j) (bits_of reach.0)) }
{
    let mut y = sets::empty();
    for j in sets::intersection(x.0, sets::below(n)) {
        let row = scratch::region_row(s, n, InState(j));
        y = sets::insert_if(y, j, sets::meets(row.0, reach.0));
    }
    InSet(y)
}

// The same of c, the inputs in nontrivial components, asked once for each run; `firsts` begin them.
fn settled(s: &[u64], n: usize, c: InSet, firsts: InSet, reach: OutSet) -> InSet
    requires { (n ≤ capacity) × (n + n ≤ set_count s.now) × Runs (sets_in s.now) n (bits_of c.0) (bits_of firsts.0) }
    ensures { bits_of result.0 ≡ pack n (λ j. settles_at (bits_of c.0) j (row_at (sets_in s.now) n j) (bits_of reach.0)) }
{
    let x = settling(s, n, firsts, reach);
    region_runs::spread(n, c, firsts, x)
}

// The rows of output o for input j, whose column is b, where no home is in reach, which x tells: the lowest move to a won position, or none. Where the
// input is in a nontrivial component its row holds homes, no move leads to one of them, and no position is won.
fn plain_row(
    room: &mut [u16],
    s: &[u64],
    z: Size,
    x: InSet,
    o: OutState,
    moves: OutSet,
    j: InState,
    b: Other,
)
    requires { Table z (length room.old) × (o.0 < z.outputs) × (j.0 < z.inputs) × (b.0 < z.width)
        × (scratch_sets z.inputs z.outputs ≤ set_count s.now) }
    ensures { ((c : ℕ) → has (bits_of x.0) j.0
        ≡ settles_at c j.0 (row_at (sets_in s.now) z.inputs j.0) (out_reach_at (sets_in s.now) z.inputs o.0)
        → PlainRow z (sets_in s.now) c o.0 (bits_of moves.0) j.0 b.0 room.old room.new)
        × (length room.new ≡ length room.old) }
{
    if sets::member(x.0, j.0) {
        return;
    }
    let row = scratch::region_row(s, z.inputs, j);
    let p = sets::lowest(sets::intersection(moves.0, row.0));
    rows::write_row(room, z, o, b, p);
}

// The same for every leader, each in its column. Mostly all of them have a home in reach.
fn plain(room: &mut [u16], s: &[u64], z: Size, c: InSet, firsts: InSet, o: OutState, moves: OutSet)
    requires { Table z (length room.old) × (o.0 < z.outputs) × (scratch_sets z.inputs z.outputs ≤ set_count s.now)
        × Runs (sets_in s.now) z.inputs (bits_of c.0) (bits_of firsts.0) }
    ensures { Plain z (sets_in s.now) (bits_of c.0) o.0 (bits_of moves.0) z.inputs room.old room.new }
{
    let leaders = z.leaders;
    let reach = scratch::out_reach(s, z.inputs, o);
    let x = settled(s, z.inputs, c, firsts, reach);
    if sets::is_subset(leaders.0, x.0) {
        return;
    }
    let mut b: usize = 0;
    for j in 0..z.inputs {
        if sets::member(leaders.0, j) {
            plain_row(room, s, z, x, o, moves, InState(j), Other(b));
            b += 1;
        }
    }
}

// The same for every output, with its moves.
pub fn plains(
    room: &mut [u16],
    s: &[u64],
    z: Size,
    c: InSet,
    firsts: InSet,
    moves: &[u64; sets::ROW_WORDS],
)
    requires { Table z (length room.old) × (scratch_sets z.inputs z.outputs ≤ set_count s.now)
        × Runs (sets_in s.now) z.inputs (bits_of c.0) (bits_of firsts.0) }
    ensures { Plains z (sets_in s.now) (bits_of c.0) (sets_in moves.now) z.outputs room.old room.new }
{
    let m = z.outputs;
    for o in 0..m {
        plain(
            room,
            s,
            z,
            c,
            firsts,
            OutState(o),
            OutSet(sets::row_of(moves, o)),
        );
    }
}
