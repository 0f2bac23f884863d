// The winner's table as a part of its buffer.
#![tactic(auto)]

ghost use Rattle.std.specs.Prelude.{length};
ghost use Rattle.solver.specs.Promise.{verdict_answer};
ghost use Rattle.handover.specs.Handed.{Handed};

use game::Game;
use solver::Winner;

// The winner's table: the filled front of the controller's room or of the panel's. On a refusal that front is empty.
// Beside it stand the number of the refusal, or 0, and whether the system wins.
// While the part lives both rooms are lent, so the contract cannot say what they hold besides it, on a refusal neither. That this is unchanged is
// promised by `solver::solve_into`, which fills them. (SPEC 7.4)
pub fn solve<'a>(
    g: Game,
    scratch: &mut [u64],
    refusal: &mut u8,
    system: &mut bool,
    controller: &'a mut [u16],
    panel: &'a mut [u16],
) -> &'a mut [u16]
    ensures { Handed g (verdict_answer g (length scratch.old) (length controller.old) (length panel.old))
        scratch.old scratch.new refusal.new system.old system.new
        controller.entry.ref_ptr panel.entry.ref_ptr result.ref_ptr result.now }
{
    let answer = solver::solve_into(g, scratch, controller, panel);
    match answer {
        Ok(Winner::System(n)) => {
            *refusal = 0;
            *system = true;
            &mut controller[..n]
        },
        Ok(Winner::Environment(n)) => {
            *refusal = 0;
            *system = false;
            &mut panel[..n]
        },
        Err(r) => {
            *refusal = u8::from(r);
            &mut controller[..0]
        },
    }
}
