// The rows of a nontrivial component with a way out to a position that is not won: at its gates, the states with a move there, the lowest such move; else
// the way to a gate. The ways are searched once for outputs that follow one another and have the same gates.
#![tactic(auto)]

ghost use Rattle.std.specs.Prelude.{◌≡◌, true, ◌≤◌, ◌<◌, length};
ghost use Rattle.bits.specs.Member.{pack, within};
ghost use Rattle.sets.specs.Words.{capacity, bits_of, sets_in};
ghost use Rattle.table_layout.specs.Rows.{LayoutFits};
ghost use Rattle.environment_table.specs.Table.{Known, Roomy};
ghost use Rattle.environment_table.specs.Pressing.{Whole, Escaped, exits_at};
ghost use Rattle.environment_escape.specs.Gates.{Gated, EscapeFits, Joins, Escape};

use environment_rows::{rows, sorts};
use game::{Game, InSet, InState, OutSet, OutState};
use table_layout::Layout;

// Outputs with which a component has the same gates; their rows outside the gates are still to be written.
#[derive(Clone, Copy)]
struct Group {
    gates: InSet,
    outputs: OutSet,
}

// What one output comes to: whether its rows are left to a tour, and the outputs collected now.
#[derive(Clone, Copy)]
struct Turn {
    tours: bool,
    group: Group,
}

// A component: its states, the inputs that its moves out enter, and its number.
#[derive(Clone, Copy)]
struct Part {
    states: InSet,
    leaving: InSet,
    first: InState,
}

// The members of c, all below n, with a move into the set `out`.
fn exits(moves: &[u64; sets::ROW_WORDS], n: usize, c: InSet, out: InSet) -> InSet
    requires { (n ≤ capacity) × (within (bits_of c.0) n ≡ true) }
    ensures { bits_of result.0 ≡ pack n (exits_at (sets_in moves.now) (bits_of c.0) (bits_of out.0)) }
{
    let mut x = sets::empty();
    for k in c.0 {
        let row = sets::row_of(moves, k);
        x = sets::insert_if(x, k, sets::meets(row, out.0));
    }
    InSet(x)
}

// Output o, with these gates, comes to a group of others. Where their gates differ, the rows of the group are written and o begins another.
fn join(
    moves: &[u64; sets::ROW_WORDS],
    room: &mut [u16],
    z: Layout,
    c: InSet,
    group: Group,
    gates: InSet,
    o: OutState,
) -> Group
    requires { LayoutFits z (length room.old) × (within (bits_of group.gates.0) z.states ≡ true) × (o.0 < capacity) }
    ensures { (bits_of result.gates.0 ≡ bits_of gates.0)
        × Joins (sets_in moves.now) z (bits_of c.0) (bits_of group.gates.0) (bits_of gates.0) (bits_of group.outputs.0) o.0
        (bits_of result.outputs.0) room.old room.new }
{
    let old = group.gates;
    let over = group.outputs;
    if sets::same(old.0, gates.0) {
        let more = sets::insert(over.0, o.0);
        return Group {
            gates,
            outputs: OutSet(more),
        };
    }
    sorts::approach(moves, room, z, c, old, over);
    let alone = sets::insert(sets::empty(), o.0);
    Group {
        gates,
        outputs: OutSet(alone),
    }
}

// The rows of a component with output o, whose moves are `replies`: at the gates they are written, and o comes to the group. They are left to a tour
// where they are not won and there is no gate; where o has no move they need no walk.
fn escape(
    moves: &[u64; sets::ROW_WORDS],
    s: &[u64],
    z: Layout,
    inner: InSet,
    part: Part,
    o: OutState,
    replies: OutSet,
    group: Group,
    room: &mut [u16],
) -> Turn
    requires { EscapeFits z (sets_in moves.now) s.now (bits_of inner.0) (bits_of part.states.0) (bits_of part.leaving.0) part.first.0 o.0
        (bits_of replies.0) (length room.old)
        × (within (bits_of group.gates.0) z.states ≡ true) }
    ensures { (p : EscapeFits z (sets_in moves.now) s.now (bits_of inner.0) (bits_of part.states.0)
        (bits_of part.leaving.0) part.first.0 o.0 (bits_of replies.0) (length room.old))
        → Gated p.game part.first.0 (bits_of group.gates.0) (bits_of group.outputs.0)
        → Escape p.game part.first.0 o.0 (bits_of group.gates.0) (bits_of group.outputs.0) (bits_of result.group.gates.0)
        (bits_of result.group.outputs.0) room.old room.new result.tours }
{
    if sets::is_empty(replies.0) {
        return Turn {
            tours: false,
            group,
        };
    }
    let n = z.states;
    let first = part.first;
    if scratch::won(s, n, inner, first, o) {
        return Turn {
            tours: false,
            group,
        };
    }
    let out = environment_rows::lost(s, n, inner, part.leaving, o);
    let c = part.states;
    let gates = exits(moves, n, c, out);
    if sets::is_empty(gates.0) {
        return Turn { tours: true, group };
    }
    sorts::enter(moves, room, z, gates, out, o);
    let next = join(moves, room, z, c, group, gates, o);
    Turn {
        tours: false,
        group: next,
    }
}

// The same for every output. The answer is the set of those that are left to a tour. The rows of both graphs are read where they stand.
pub fn escapes<'a>(
    g: Game,
    ins: &'a [u64; sets::ROW_WORDS],
    outs: &'a [u64; sets::ROW_WORDS],
    s: &[u64],
    inner: InSet,
    counters: usize,
    c: InSet,
    first: InState,
    room: &mut [u16],
) -> OutSet
    requires { Known g s.now (bits_of inner.0) × Roomy g counters (length room.old) × Whole g (bits_of c.0) first.0
        × (ins.now ≡ g.input.moves) × (outs.now ≡ g.output.moves) }
    ensures { Escaped g first.0 room.old room.new (bits_of result.0) }
{
    let z = rows::layout_of(g.input.states, counters, g.output.states);
    let leaving = InSet(graph_components::leaving(ins, g.input.states, c.0));
    let part = Part {
        states: c,
        leaving,
        first,
    };
    let mut group = Group {
        gates: InSet(sets::empty()),
        outputs: OutSet(sets::empty()),
    };
    let mut touring = sets::empty();
    for o in 0..g.output.states {
        let t = escape(
            ins,
            s,
            z,
            inner,
            part,
            OutState(o),
            OutSet(sets::row_of(outs, o)),
            group,
            room,
        );
        group = t.group;
        touring = sets::insert_if(touring, o, t.tours);
    }
    let gates = group.gates;
    let outputs = group.outputs;
    sorts::approach(ins, room, z, c, gates, outputs);
    OutSet(touring)
}
