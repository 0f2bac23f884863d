// The solver, the controller's table with its rows by component.
ghost use Rattle.std.specs.Prelude.{◌≡◌, ltb};
ghost use Rattle.game.specs.Acceptance.{acceptance, accepted};
ghost use Rattle.board.specs.Board.{game_on, sizes_of};
ghost use Rattle.game_sets.specs.Lists.{Lists};
ghost use Rattle.play.specs.Play.{separated_of};
ghost use Rattle.compact.specs.Compact.{compact_length};
ghost use Rattle.table_sizes.specs.Outlined.{Outlined};
ghost use Rattle.solver.specs.Compact.{SolvedCompact};

use crate::Winner;
use game::{Game, Refusal};
use table_sizes::Outline;

// Whether a room of this length is too short for the controller's table, by the count of the components. They are found with no scratch: a short room is
// refused before anything is written.
fn is_short_counted(g: Game, long: usize) -> bool
    requires { acceptance g ≡ accepted }
    ensures { result ≡ ltb long (compact_length (separated_of g)) }
{
    let components = graph_ranks::components(g, graph_ranks::leading(g));
    long < compact_sizes::compact_length(g, components)
}

// The same. There are no more components than inputs, so a room that has a row for each input is never too short, and nothing need be counted.
fn is_short(g: Game, given: Outline, long: usize) -> bool
    requires { (acceptance g ≡ accepted) × Outlined g given }
    ensures { result ≡ ltb long (compact_length (separated_of g)) }
{
    let most = g.input.states + table_sizes::controller_length_of(g, given);
    if most <= long {
        return false;
    }
    is_short_counted(g, long)
}

// On an accepted game, where the buffers are long enough.
pub fn solve_accepted<'a>(
    g: Game,
    given: Outline,
    l: &'a [u64; game_sets::WORDS],
    b: &'a [u64; board::WORDS],
    scratch: &mut [u64],
    controller: &mut [u16],
    panel: &mut [u16],
) -> Result<Winner, Refusal>
    requires { (acceptance g ≡ accepted) × Outlined g given × Lists g l.now × (game_on (sizes_of g) b.now ≡ g) }
    ensures { SolvedCompact g scratch.old scratch.new controller.old controller.new panel.old
        panel.new result }
{
    if scratch.len() < scratch::length(g) {
        return Err(Refusal::ShortScratch);
    }
    if is_short(g, given, controller.len()) {
        return Err(Refusal::ShortController);
    }
    let e = table_sizes::environment_length_of(g, given);
    if panel.len() < e {
        return Err(Refusal::ShortPanel);
    }
    let c = solver_winner::by_component::write_winner(g, given, l, b, scratch, controller, panel);
    if c == 0 {
        return Ok(Winner::Environment(e));
    }
    Ok(Winner::System(c))
}
