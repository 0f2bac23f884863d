// The solver: the side that wins, and its table.
#![tactic(auto)]

ghost use Rattle.std.specs.Prelude.{◌≡◌};
ghost use Rattle.game.specs.Acceptance.{acceptance, accepted};
ghost use Rattle.board.specs.Board.{game_on, sizes_of};
ghost use Rattle.game_sets.specs.Lists.{Lists};
ghost use Rattle.table_sizes.specs.Outlined.{Outlined};
ghost use Rattle.solver.specs.Promise.{Solved};
ghost use Rattle.solver.specs.Compact.{SolvedCompact};

use game::{Game, Refusal};
use table_sizes::Outline;

mod by_component; // the controller's table with its rows by component

// The answer of the solver: the side that wins, with how many entries its table has.
#[derive(Clone, Copy)]
pub enum Winner {
    System(usize),
    Environment(usize),
}

// The solver on an accepted game, where the buffers are long enough. The game is lent to it laid out on a board, and its requirements outlined, so that
// nothing below copies a game to read one of its rows.
fn solve_accepted<'a>(
    g: Game,
    given: Outline,
    l: &'a [u64; game_sets::WORDS],
    b: &'a [u64; board::WORDS],
    scratch: &mut [u64],
    controller: &mut [u16],
    panel: &mut [u16],
) -> Result<Winner, Refusal>
    requires { (acceptance g ≡ accepted) × Outlined g given × Lists g l.now × (game_on (sizes_of g) b.now ≡ g) }
    ensures { Solved g scratch.old scratch.new controller.old controller.new panel.old
        panel.new result }
{
    if scratch.len() < scratch::length(g) {
        return Err(Refusal::ShortScratch);
    }
    let c = table_sizes::controller_length_of(g, given);
    if controller.len() < c {
        return Err(Refusal::ShortController);
    }
    let e = table_sizes::environment_length_of(g, given);
    if panel.len() < e {
        return Err(Refusal::ShortPanel);
    }
    if solver_winner::write_winner(g, given, l, b, scratch, controller, panel) {
        return Ok(Winner::System(c));
    }
    Ok(Winner::Environment(e))
}

// Names the side that wins and writes its table into the front of its buffer. The game is laid out on a board once, from which the region is worked out.
// (SPEC 3.5, 7.4, 7.5, 9.3)
pub fn solve_into(
    g: Game,
    scratch: &mut [u64],
    controller: &mut [u16],
    panel: &mut [u16],
) -> Result<Winner, Refusal>
    ensures { Solved g scratch.old scratch.new controller.old controller.new panel.old
        panel.new result }
{
    let mut b: [u64; board::WORDS] = [0; board::WORDS];
    board::lay(g, &mut b);
    acceptance::accept_lent(g, board::in_rows(&b), board::out_rows(&b))?;
    let wanted = game_sets::list_of(g);
    let given = table_sizes::outline_of(g, wanted.assumed, wanted.guaranteed);
    solve_accepted(g, given, &wanted.sets, &b, scratch, controller, panel)
}

// The same, the controller's table with its rows by component. (SPEC 11.2)
pub fn solve_compact_into(
    g: Game,
    scratch: &mut [u64],
    controller: &mut [u16],
    panel: &mut [u16],
) -> Result<Winner, Refusal>
    ensures { SolvedCompact g scratch.old scratch.new controller.old controller.new panel.old
        panel.new result }
{
    let mut b: [u64; board::WORDS] = [0; board::WORDS];
    board::lay(g, &mut b);
    acceptance::accept_lent(g, board::in_rows(&b), board::out_rows(&b))?;
    let wanted = game_sets::list_of(g);
    let given = table_sizes::outline_of(g, wanted.assumed, wanted.guaranteed);
    by_component::solve_accepted(g, given, &wanted.sets, &b, scratch, controller, panel)
}
