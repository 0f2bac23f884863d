// The winner's table.
#![tactic(auto)]

ghost use Rattle.std.specs.Prelude.{◌≡◌, ◌≤◌, length};
ghost use Rattle.game.specs.Acceptance.{acceptance, accepted};
ghost use Rattle.play.specs.Play.{separated_of};
ghost use Rattle.theory.specs.Entries.{controller_entries, environment_entries};
ghost use Rattle.board.specs.Board.{game_on, sizes_of};
ghost use Rattle.game_sets.specs.Lists.{Lists};
ghost use Rattle.table_sizes.specs.Outlined.{Outlined};
ghost use Rattle.scratch.specs.Scratch.{scratch_length};
ghost use Rattle.solver_winner.specs.Written.{Written};

use game::Game;
use table_sizes::Outline;

pub mod by_component; // with the controller's rows by component

// Writes the winner's table of an accepted game and clears scratch. Answers whether that is the system's.
pub fn write_winner<'a>(
    g: Game,
    given: Outline,
    l: &'a [u64; game_sets::WORDS],
    b: &'a [u64; board::WORDS],
    scratch: &mut [u64],
    controller: &mut [u16],
    panel: &mut [u16],
) -> bool
    requires { (acceptance g ≡ accepted) × (scratch_length g ≤ length scratch.old) × (length (controller_entries (separated_of g)) ≤ length controller.old)
        × (length (environment_entries (separated_of g)) ≤ length panel.old)
        × Outlined g given × Lists g l.now × (game_on (sizes_of g) b.now ≡ g) }
    ensures { Written g scratch.old scratch.new controller.old controller.new panel.old
        panel.new result }
{
    let used = scratch::length(g);
    let x = region::prepare(board::sizes_of(g), b, scratch);
    let inner = x.inputs;
    if region_verdict::system_wins(g, scratch, inner) {
        let outs = g.output.moves;
        controller::fill(g, given, l, &outs, scratch, inner, controller);
        scratch_clearing::clear(scratch, used);
        return true;
    }
    environment::fill(g, given, l, b, scratch, inner, panel);
    scratch_clearing::clear(scratch, used);
    false
}
