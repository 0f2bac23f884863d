// What one file of a catalogue comes to: the solve program's verdict, with the game's won positions and all its positions.
#![tactic(auto)]

ghost use Rattle.std.specs.Prelude.{◌≡◌, ◌≤◌, ◌*◌};
ghost use Rattle.finite.specs.Bounded.{count};
ghost use Rattle.bits.specs.Member.{has};
ghost use Rattle.sets.specs.Words.{capacity, bits_of, sets_in, set_count};
ghost use Rattle.game.specs.Acceptance.{acceptance, accepted};
ghost use Rattle.scratch.specs.Scratch.{scratch_length};
ghost use Rattle.solver.specs.Promise.{verdict_answer};
ghost use Rattle.prints.specs.Prints.{room_entries};
ghost use Rattle.catalogue_tally.specs.Figures.{Modest};
ghost use Rattle.catalogue_verdict.specs.Judged.{marks, Census, Comes, Judged};

use catalogue_tally::Counted;
use game::{Game, Refusal};
use prints::ROOM;
use sets::Set;
use solver::Winner;
use text::Unread;

// How many of the first m states a set has.
fn row_count(x: Set, m: usize) -> usize
    requires { m ≤ capacity }
    ensures { result ≡ count m (has (bits_of x)) }
{
    let mut c: usize = 0;
    let mut s: usize = 0;
    while s < m {
        if sets::member(x, s) {
            c += 1;
            s += 1;
            continue;
        }
        s += 1;
    }
    c
}

// How many positions a map of n inputs and m outputs marks.
fn map_count(map: &[u64], n: usize, m: usize) -> usize
    requires { (n ≤ set_count map.now) × (n ≤ capacity) × (m ≤ capacity) }
    ensures { (result ≡ marks (sets_in map.now) m n) × (result ≤ 16384) }
{
    let mut c: usize = 0;
    for i in 0..n {
        let x = sets::row(map, i);
        c += row_count(x, m);
    }
    c
}

// How many positions of an accepted game are won.
fn won_count(g: Game) -> usize
    requires { acceptance g ≡ accepted }
    ensures { Census g result × (result ≤ 16384) }
{
    let mut scratch = [0u64; scratch::MOST];
    let mut map = [0u64; sets::ROW_WORDS];
    let _ = map::won_map(g, &mut scratch, &mut map);
    map_count(&map, g.input.states, g.output.states)
}

// What an accepted game comes to, in the two rooms.
fn solve(g: Game, controller: &mut [u16; ROOM], panel: &mut [u16; ROOM]) -> Result<Counted, Refusal>
    requires { acceptance g ≡ accepted }
    ensures { Comes g (verdict_answer g (scratch_length g) room_entries room_entries) result × Modest result }
{
    let mut scratch = [0u64; scratch::MOST];
    let winner = solver::solve_into(g, &mut scratch, controller, panel)?;
    let won = won_count(g);
    let positions = g.input.states * g.output.states;
    match winner {
        Winner::System(_) => Ok(Counted::System(won, positions)),
        Winner::Environment(_) => Ok(Counted::Environment(won, positions)),
    }
}

// What a file comes to. The rooms are the solve program's, and what they hold afterwards is nobody's.
pub fn judge(
    file: &[u8],
    controller: &mut [u16; ROOM],
    panel: &mut [u16; ROOM],
) -> Result<Counted, Refusal>
    ensures { Judged file.now result × Modest result }
{
    match text::read(file) {
        Ok(g) => solve(g, controller, panel),
        Err(Unread::Misshapen(_)) => Err(Refusal::NoGame),
        Err(Unread::Refused(r)) => Err(r),
    }
}
