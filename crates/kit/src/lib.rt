// The kit's solver: whether the new drive can stand in for the old one, and the table of commands with which it does.
#![tactic(auto)]

ghost use Rattle.std.specs.Prelude.{◌≡◌, length};
ghost use Rattle.game.specs.Acceptance.{accepted};
ghost use Rattle.kit_drives.specs.Acceptance.{kit_acceptance};
ghost use Rattle.kit_rows.specs.Rows.{kit_length, counters as countersOf};
ghost use Rattle.kit.specs.Promise.{KitSolved};
ghost use Rattle.kit.specs.Roomy.{Roomy};

use game::{Game, Refusal};
use kit_drives::Kit;
use solver::Winner;

// How many entries the kit's table has.
fn table_length(k: Kit, counters: usize) -> usize
    requires { (kit_acceptance k ≡ accepted) × (counters ≡ countersOf k) }
    ensures { result ≡ kit_length k }
{
    let modes = k.old.modes;
    modes + k.new.modes * counters * modes * k.old.commands
}

// On an accepted kit, of which g is the game and t the length of the table, where the rooms for the tables of the system are long enough.
fn solve_fitting(
    k: Kit,
    g: Game,
    t: usize,
    scratch: &mut [u64],
    controller: &mut [u16],
    panel: &mut [u16],
    room: &mut [u16],
) -> Result<Winner, Refusal>
    requires { Roomy k g t (length scratch.old) (length controller.old) (length room.old) }
    ensures { KitSolved k scratch.old scratch.new controller.old controller.new panel.old
        panel.new room.old room.new result }
{
    let answer = solver::solve_into(g, scratch, controller, panel)?;
    match answer {
        Winner::System(n) => {
            kit_rows::fill(
                k,
                table_sizes::controller_counters(g),
                &controller[..n],
                scratch,
                room,
            );
            Ok(Winner::System(t))
        },
        Winner::Environment(n) => Ok(Winner::Environment(n)),
    }
}

// On an accepted kit. A room that is too short is told before the solver begins.
fn solve_accepted(
    k: Kit,
    scratch: &mut [u64],
    controller: &mut [u16],
    panel: &mut [u16],
    room: &mut [u16],
) -> Result<Winner, Refusal>
    requires { kit_acceptance k ≡ accepted }
    ensures { KitSolved k scratch.old scratch.new controller.old controller.new panel.old
        panel.new room.old room.new result }
{
    let g = kit_drives::game_of(k);
    if scratch.len() < scratch::length(g) {
        return Err(Refusal::ShortScratch);
    }
    if controller.len() < table_sizes::controller_length(g) {
        return Err(Refusal::ShortController);
    }
    let t = table_length(k, table_sizes::controller_counters(g));
    if room.len() < t {
        return Err(Refusal::ShortController);
    }
    solve_fitting(k, g, t, scratch, controller, panel, room)
}

// Names the side that wins. Where the system does, the front of room becomes the kit's table, and the controller's room holds the controller's.
// SPEC 13.2, 13.3, 13.4
pub fn solve_kit(
    k: Kit,
    scratch: &mut [u64],
    controller: &mut [u16],
    panel: &mut [u16],
    room: &mut [u16],
) -> Result<Winner, Refusal>
    ensures { KitSolved k scratch.old scratch.new controller.old controller.new panel.old
        panel.new room.old room.new result }
{
    kit_checks::accept_kit(k)?;
    solve_accepted(k, scratch, controller, panel, room)
}
