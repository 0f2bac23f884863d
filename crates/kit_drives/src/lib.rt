// Drives as builders think of them: modes, and what each command does in each mode. A kit is an old drive, a new one, and the requirements on their modes.
#![tactic(auto)]

ghost use Rattle.std.specs.Prelude.{◌≡◌, ◌<◌, ◌≤◌};
ghost use Rattle.bits.specs.Member.{pack};
ghost use Rattle.sets.specs.Words.{capacity, bits_of};
ghost use Rattle.kit_drives.specs.Drive.{next_in, made_by, Small, graph_from, game_from};

use game::{Game, Graph, Requirement};
use sets::Set;

// How many places the next modes of a drive have: 16 commands for each of 128 modes.
pub const NEXT: usize = 2048;

// Place 16 × mode + command of `next` is the mode that the command leads to, 255 where it is barred.
#[repr(C)]
#[derive(Clone, Copy)]
pub struct Drive {
    pub modes: usize,
    pub initial: Set,
    pub commands: usize,
    pub next: [u8; NEXT],
}

// The panel gives the old drive's commands. Of the eight places for requirements k are in use.
#[repr(C)]
#[derive(Clone, Copy)]
pub struct Kit {
    pub old: Drive,
    pub new: Drive,
    pub k: usize,
    pub requirements: [Requirement; 8],
}

// The mode that command u leads to from mode m, 255 where it is barred.
pub fn next_mode(next: &[u8; NEXT], m: usize, u: usize) -> usize
    requires { (m < capacity) × (u < 16) }
    ensures { result ≡ next_in next.now m u }
{
    usize::from(next[16 * m + u])
}

// The modes that some command leads to from mode m.
fn moves_from(next: &[u8; NEXT], modes: usize, commands: usize, m: usize) -> Set
    requires { (modes ≤ capacity) × (commands ≤ 16) × (m < capacity) }
    ensures { bits_of result ≡ pack modes (made_by next.now commands m) }
{
    let mut x = sets::empty();
    for u in 0..commands {
        let t = next_mode(next, m, u);
        if t < modes {
            x = sets::insert(x, t);
        }
    }
    x
}

// The drive's graph: a move exists where some command makes it.
fn graph_of(d: Drive) -> Graph
    requires { Small d }
    ensures { result ≡ graph_from d }
{
    let mut moves = [0u64; sets::ROW_WORDS];
    for m in 0..sets::CAPACITY {
        let x = moves_from(&d.next, d.modes, d.commands, m);
        sets::put_of(&mut moves, m, x);
    }
    let initial = d.initial;
    Graph {
        states: d.modes,
        initial,
        moves,
    }
}

// The game of a kit.
pub fn game_of(k: Kit) -> Game
    requires { Small k.old × Small k.new }
    ensures { result ≡ game_from k }
{
    let input = graph_of(k.old);
    let output = graph_of(k.new);
    let requirements = k.requirements;
    Game {
        input,
        output,
        k: k.k,
        requirements,
    }
}
