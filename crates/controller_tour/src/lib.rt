// The rows at a home: the tour past the guarantees.
#![tactic(auto)]

ghost use Rattle.std.specs.Prelude.{◌≤◌, ◌≢◌, ◌≡◌, length};
ghost use Rattle.play.specs.Play.{separated_of};
ghost use Rattle.game_sets.specs.Lists.{Lists};
ghost use Rattle.table_sizes.specs.Outlined.{Outlined};
ghost use Rattle.controller_rows.specs.Writes.{length_of};
ghost use Rattle.controller_table.specs.Filled.{ControllerFilled, There, Sized, HomeOf, HomeGoals};

use controller_rows::{Home, Size, leaders, rows, sorts};
use game::Game;
use table_counters::CounterSet;
use table_sizes::Outline;

// The rows at a home for every goal of q, one requirement after the other. Of the game, which goes by value, only counts are read: its output graph's rows are
// lent, as `outs`, and its requirements are read in the outline.
fn seek_all(
    g: Game,
    given: Outline,
    l: &[u64; game_sets::WORDS],
    outs: &[u64; sets::ROW_WORDS],
    room: &mut [u16],
    z: Size,
    w: Home,
    q: CounterSet,
)
    requires { Sized g z × HomeOf (separated_of g) w × HomeGoals (separated_of g) w q.0 × (q.0 ≢ 0)
        × (length_of z ≤ length room.old) × Outlined g given × (outs.now ≡ g.output.moves) × Lists g l.now }
    ensures { ControllerFilled (separated_of g) z (There (separated_of g) w.state.0) room.old room.new }
{
    let y = rows::layout_of(z);
    let component = w.component;
    let over = leaders::columns_of(z, w.inputs);
    let mut n: usize = 0;
    for r in 0..g.k {
        let t = table_sizes::guarantees_of(g, given, l, r, n);
        sorts::aim_some(outs, room, y, component, over, q, t);
        n += t.count;
    }
}

// The rows at a home. The goals are found once for all counters.
pub fn tour(
    g: Game,
    given: Outline,
    l: &[u64; game_sets::WORDS],
    outs: &[u64; sets::ROW_WORDS],
    room: &mut [u16],
    z: Size,
    w: Home,
)
    requires { Sized g z × HomeOf (separated_of g) w × (length_of z ≤ length room.old) × Outlined g given
        × (outs.now ≡ g.output.moves) × Lists g l.now }
    ensures { ControllerFilled (separated_of g) z (There (separated_of g) w.state.0) room.old room.new }
{
    let component = w.component;
    let q = table_sizes::guarantees_met(g, given, l, component);
    if table_counters::is_empty(q) {
        let over = leaders::columns_of(z, w.inputs);
        sorts::stay(outs, room, rows::layout_of(z), component, over);
        return;
    }
    seek_all(g, given, l, outs, room, z, w, q);
}
