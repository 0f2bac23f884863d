// The answers of the public entries as records for callers in other languages. A code is document 01's number of a refusal, 0 for none.
#![tactic(auto)]

ghost use Rattle.std.specs.Prelude.{◌≡◌, Err};
ghost use Rattle.player.specs.Player.{moved_of};
ghost use Rattle.game.specs.Acceptance.{acceptance_number};
ghost use Rattle.nanpuwiq_results.specs.Results.{solve_result, read_result, write_result, compare_result, panel_moved, zero_position};
ghost use Rattle.nanpuwiq_results.specs.Results.{names_nothing, names_input, explain_result, check_result, judged_as, judge_result};
ghost use Rattle.nanpuwiq_results.specs.Results.{move_result, count_result};

use checker::Finding;
use game::{Acceptance, Game, InState, OutState, Refusal};
use ground_search::Explanation;
use interlock::Side;
use panel_place::PanelMove;
use player::Moved;
use player_place::Position;
use recorder::Comparison;
use solver::Winner;
use text::Unread;
use text_scan::whole;

// The solver's answer: the code; whether the system wins; how many entries are filled. On a refusal the last two are false and 0.
#[repr(C)]
#[derive(Clone, Copy)]
pub struct SolveResult {
    pub code: u8,
    pub system: bool,
    pub entries: usize,
}

// What made a position won or lost: the code; the ground's number, 1 to 8 in the order of document 02's request, 0 on a refusal; the output that the ground
// names, the input, or the requirement with its output set. What it does not name is 0.
#[repr(C)]
#[derive(Clone, Copy)]
pub struct ExplainResult {
    pub code: u8,
    pub number: u8,
    pub output: OutState,
    pub input: InState,
    pub requirement: usize,
    pub set: usize,
}

// What the checker finds in a table: the code; 0 for a table that wins, 1 for a bad start, 2 for a bad row, 3 for a bad round; the input of the start, or the
// row's next input; how many entries of the room the walk has; where its closing round begins; the requirement that the round breaks. What an answer
// does not name is 0.
#[repr(C)]
#[derive(Clone, Copy)]
pub struct CheckResult {
    pub code: u8,
    pub finding: u8,
    pub input: InState,
    pub walk: usize,
    pub begins: usize,
    pub requirement: usize,
}

// The verdict with bars: the code; whether the system wins, false on a refusal.
#[repr(C)]
#[derive(Clone, Copy)]
pub struct JudgeResult {
    pub code: u8,
    pub system: bool,
}

// The answer to a move between the layouts: the code; how many entries are filled, 0 on a refusal.
#[repr(C)]
#[derive(Clone, Copy)]
pub struct MoveResult {
    pub code: u8,
    pub entries: usize,
}

// How many components there are: the code; the count, 0 on a refusal.
#[repr(C)]
#[derive(Clone, Copy)]
pub struct CountResult {
    pub code: u8,
    pub count: usize,
}

// The reader's answer: the code; for code 11 the place; the game, which is the empty one on a refusal.
#[repr(C)]
#[derive(Clone, Copy)]
pub struct ReadResult {
    pub code: u8,
    pub place: usize,
    pub game: Game,
}

// The writer's answer: the code; how many bytes are filled, 0 on a refusal.
#[repr(C)]
#[derive(Clone, Copy)]
pub struct WriteResult {
    pub code: u8,
    pub bytes: usize,
}

// The panel's move: the next input and the next counter, both 0 on a refusal, and the code.
#[repr(C)]
#[derive(Clone, Copy)]
pub struct PanelMoved {
    pub input: InState,
    pub counter: usize,
    pub code: u8,
}

// The recorder's answer: the code; whether the recordings agree; whether one has ended before the other; the step. Beside a refusal the step is 0.
#[repr(C)]
#[derive(Clone, Copy)]
pub struct CompareResult {
    pub code: u8,
    pub agree: bool,
    pub ended: bool,
    pub step: usize,
}

// The code of an answer that says nothing but whether it is refused.
pub fn refusal_code(a: Acceptance) -> u8
    ensures { result ≡ acceptance_number a }
{
    match a {
        Ok(()) => 0,
        Err(r) => u8::from(r),
    }
}

// The verdict with bars as a record.
fn judged(code: u8, system: bool) -> JudgeResult
    ensures { result ≡ judged_as code system }
{
    JudgeResult { code, system }
}

#[tactic(auto, unfolding(crate::specs::Results::judge_result))]
pub fn judge_result(a: Result<Side, Refusal>) -> JudgeResult
    ensures { result ≡ judge_result a }
{
    match a {
        Ok(Side::System) => judged(0, true),
        Ok(Side::Environment) => judged(0, false),
        Err(r) => judged(u8::from(r), false),
    }
}

#[tactic(auto, unfolding(crate::specs::Results::solve_result))]
pub fn solve_result(v: Result<Winner, Refusal>) -> SolveResult
    ensures { result ≡ solve_result v }
{
    match v {
        Ok(Winner::System(n)) => SolveResult {
            code: 0,
            system: true,
            entries: n,
        },
        Ok(Winner::Environment(n)) => SolveResult {
            code: 0,
            system: false,
            entries: n,
        },
        Err(r) => SolveResult {
            code: u8::from(r),
            system: false,
            entries: 0,
        },
    }
}

// A ground that names nothing, or the code of a refusal.
fn names_nothing(code: u8, number: u8) -> ExplainResult
    ensures { result ≡ names_nothing code number }
{
    ExplainResult {
        code,
        number,
        output: OutState(0),
        input: InState(0),
        requirement: 0,
        set: 0,
    }
}

// A ground that names an input.
fn names_input(number: u8, input: InState) -> ExplainResult
    ensures { result ≡ names_input number input }
{
    ExplainResult {
        code: 0,
        number,
        output: OutState(0),
        input,
        requirement: 0,
        set: 0,
    }
}

#[tactic(auto, unfolding(crate::specs::Results::explain_result))]
pub fn explain_result(a: Result<Explanation, Refusal>) -> ExplainResult
    ensures { result ≡ explain_result a }
{
    match a {
        Ok(Explanation::InputStuck) => names_nothing(0, 1),
        Ok(Explanation::ByReplies) => names_nothing(0, 2),
        Ok(Explanation::AtHome(d)) => ExplainResult {
            code: 0,
            number: 3,
            output: d,
            input: InState(0),
            requirement: 0,
            set: 0,
        },
        Ok(Explanation::OutputStuck) => names_nothing(0, 4),
        Ok(Explanation::Unanswered(j)) => names_input(5, j),
        Ok(Explanation::ByWayOut(j)) => names_input(6, j),
        Ok(Explanation::Unserved(k, n)) => ExplainResult {
            code: 0,
            number: 7,
            output: OutState(0),
            input: InState(0),
            requirement: k,
            set: n,
        },
        Ok(Explanation::PushedOn) => names_nothing(0, 8),
        Err(r) => names_nothing(u8::from(r), 0),
    }
}

#[tactic(auto, unfolding(crate::specs::Results::check_result))]
pub fn check_result(a: Result<Finding, Refusal>) -> CheckResult
    ensures { result ≡ check_result a }
{
    match a {
        Ok(Finding::Accepted) => CheckResult {
            code: 0,
            finding: 0,
            input: InState(0),
            walk: 0,
            begins: 0,
            requirement: 0,
        },
        Ok(Finding::BadStart(i)) => CheckResult {
            code: 0,
            finding: 1,
            input: i,
            walk: 0,
            begins: 0,
            requirement: 0,
        },
        Ok(Finding::BadRow(n, j)) => CheckResult {
            code: 0,
            finding: 2,
            input: j,
            walk: n,
            begins: 0,
            requirement: 0,
        },
        Ok(Finding::BadRound(n, b, q)) => CheckResult {
            code: 0,
            finding: 3,
            input: InState(0),
            walk: n,
            begins: b,
            requirement: q,
        },
        Err(r) => CheckResult {
            code: u8::from(r),
            finding: 0,
            input: InState(0),
            walk: 0,
            begins: 0,
            requirement: 0,
        },
    }
}

// One empty game for either refusal, so that the stack holds one and not two.
#[tactic(auto, unfolding(crate::specs::Results::read_result))]
fn unread_result(u: Unread) -> ReadResult
    ensures { result ≡ read_result (Err u) }
{
    let game = whole::empty_game();
    match u {
        Unread::Misshapen(p) => ReadResult {
            code: u8::from(Refusal::NoGame),
            place: p,
            game,
        },
        Unread::Refused(r) => ReadResult {
            code: u8::from(r),
            place: 0,
            game,
        },
    }
}

#[tactic(auto, unfolding(crate::specs::Results::read_result))]
pub fn read_result(a: Result<Game, Unread>) -> ReadResult
    ensures { result ≡ read_result a }
{
    match a {
        Ok(game) => ReadResult {
            code: 0,
            place: 0,
            game,
        },
        Err(u) => unread_result(u),
    }
}

#[tactic(auto, unfolding(crate::specs::Results::write_result))]
pub fn write_result(a: Result<usize, Refusal>) -> WriteResult
    ensures { result ≡ write_result a }
{
    match a {
        Ok(n) => WriteResult { code: 0, bytes: n },
        Err(r) => WriteResult {
            code: u8::from(r),
            bytes: 0,
        },
    }
}

#[tactic(auto, unfolding(crate::specs::Results::move_result))]
pub fn move_result(a: Result<usize, Refusal>) -> MoveResult
    ensures { result ≡ move_result a }
{
    match a {
        Ok(n) => MoveResult {
            code: 0,
            entries: n,
        },
        Err(r) => MoveResult {
            code: u8::from(r),
            entries: 0,
        },
    }
}

#[tactic(auto, unfolding(crate::specs::Results::count_result))]
pub fn count_result(a: Result<usize, Refusal>) -> CountResult
    ensures { result ≡ count_result a }
{
    match a {
        Ok(n) => CountResult { code: 0, count: n },
        Err(r) => CountResult {
            code: u8::from(r),
            count: 0,
        },
    }
}

#[tactic(auto, unfolding(crate::specs::Results::compare_result))]
pub fn compare_result(a: Result<Comparison, Refusal>) -> CompareResult
    ensures { result ≡ compare_result a }
{
    match a {
        Ok(Comparison::Agree) => CompareResult {
            code: 0,
            agree: true,
            ended: false,
            step: 0,
        },
        Ok(Comparison::Differ(n)) => CompareResult {
            code: 0,
            agree: false,
            ended: false,
            step: n,
        },
        Ok(Comparison::Ended(n)) => CompareResult {
            code: 0,
            agree: false,
            ended: true,
            step: n,
        },
        Ok(Comparison::Fault(n, r)) => CompareResult {
            code: u8::from(r),
            agree: false,
            ended: false,
            step: n,
        },
        Err(r) => CompareResult {
            code: u8::from(r),
            agree: false,
            ended: false,
            step: 0,
        },
    }
}

#[tactic(auto, unfolding(player::specs::Player::moved_of, crate::specs::Results::zero_position))]
pub fn first_move(a: Result<Position, Refusal>) -> Moved
    ensures { result ≡ moved_of zero_position a }
{
    match a {
        Ok(p) => Moved { at: p, code: 0 },
        Err(r) => Moved {
            at: Position {
                input: InState(0),
                output: OutState(0),
                counter: 0,
            },
            code: u8::from(r),
        },
    }
}

#[tactic(auto, unfolding(crate::specs::Results::panel_moved))]
pub fn panel_move(a: Result<PanelMove, Refusal>) -> PanelMoved
    ensures { result ≡ panel_moved a }
{
    match a {
        Ok(m) => {
            let input = m.input;
            PanelMoved {
                input,
                counter: m.counter,
                code: 0,
            }
        }
        Err(r) => PanelMoved {
            input: InState(0),
            counter: 0,
            code: u8::from(r),
        },
    }
}
