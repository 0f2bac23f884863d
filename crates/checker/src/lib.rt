// Whether a controller's table from anywhere wins, and what shows that it does not.
#![tactic(auto)]

ghost use Rattle.std.specs.Prelude.{◌≡◌, ◌≤◌, length};
ghost use Rattle.game.specs.Acceptance.{acceptance, accepted};
ghost use Rattle.demands.specs.Demands.{play_of};
ghost use Rattle.checker_places.specs.Place.{walk_room, place_count};
ghost use Rattle.checker_rows.specs.Rows.{Ready};
ghost use Rattle.checker.specs.Check.{Checks};
ghost use Rattle.checker.specs.Steps.{RoundFits, RoundWritten, Found};

use checker_places::{PLACES, WALK};
use game::{Game, InState, Refusal};

// A bad start has its input; a bad row the length of the walk and the next input; a bad round the length of the walk, where the closing round begins and
// the requirement that it breaks.
#[derive(Clone, Copy)]
pub enum Finding {
    Accepted,
    BadStart(InState),
    BadRow(usize, InState),
    BadRound(usize, usize, usize),
}

// Writes the way to the round's first place, then the round, whose c places begin `walk`. The answer is the length of the way.
fn write_round(
    queue: &[u16; PLACES],
    from: &[u16; PLACES],
    n: usize,
    walk: &[u16; WALK],
    c: usize,
    room: &mut [u16],
) -> usize
    requires { RoundFits queue.now from.now n walk.now c room.old }
    ensures { RoundWritten queue.now from.now n walk.now c room.old room.new result }
{
    let mut way = [0u16; PLACES];
    // The search from the starts found the round.
    let k = checker_search::first_at(queue, n, usize::from(walk[0])).unwrap();
    let m = checker_reach::stem(queue, from, k, &mut way, room);
    checker_search::copy(walk, 1, c, room, m);
    m
}

// Checks a table of the controller's length. The room is written once the answer is known.
fn check_table(g: Game, counters: usize, places: usize, table: &[u16], room: &mut [u16]) -> Finding
    requires { Ready g counters table.now × (places ≡ place_count (play_of g) counters) × (walk_room ≤ length room.old) }
    ensures { Found g table.now room.old room.new (Ok result) }
{
    let all = [1u8; PLACES];
    let mut to = [0u16; PLACES];
    let mut mark = [0u8; PLACES];
    let mut queue = [0u16; PLACES];
    let mut from = [0u16; PLACES];
    let mut way = [0u16; PLACES];
    let mut walk = [0u16; WALK];
    let h = g.input;
    let inputs = h.states;
    checker_rows::fill(g, counters, places, table, &mut to);
    let o = checker_reach::open(
        g, counters, places, table, &all, &mut mark, &mut queue, &mut from,
    );
    if let Some(i) = o.bad {
        return Finding::BadStart(InState(i));
    }
    let n = checker_search::exhaust(
        inputs, places, &h.moves, &to, &all, &mut mark, &mut queue, &mut from, o.found,
    );
    if let Some(s) = checker_reach::scan(inputs, places, &h.moves, &to, &queue, n) {
        let m = checker_reach::stem(&queue, &from, s.at, &mut way, room);
        return Finding::BadRow(m, InState(s.input));
    }
    let Some(v) = checker_pairs::judge(g, inputs, counters, places, &h.moves, &to, &mark, &mut walk)
    else {
        return Finding::Accepted;
    };
    let m = write_round(&queue, &from, n, &walk, v.round, room);
    Finding::BadRound(m + v.round - 1, m - 1, v.requirement)
}

// Checks a table of an accepted game.
fn check_accepted(g: Game, table: &[u16], room: &mut [u16]) -> Result<Finding, Refusal>
    requires { acceptance g ≡ accepted }
    ensures { Checks g table.now room.old room.new result }
{
    let length = table_sizes::controller_length(g);
    if table.len() != length {
        return Err(Refusal::NotControllers);
    }
    let places = length - g.input.states;
    if places > PLACES {
        return Err(Refusal::TooManyRows);
    }
    if room.len() < WALK {
        return Err(Refusal::ShortScratch);
    }
    Ok(check_table(g, table_sizes::controller_counters(g), places, table, room))
}

// Checks a controller's table: accepted exactly when it wins; else what is handed back, with the walk at the room's front, shows that it does not.
// SPEC 12.1, 12.2, 12.3, 12.4
pub fn check(g: Game, table: &[u16], room: &mut [u16]) -> Result<Finding, Refusal>
    ensures { Checks g table.now room.old room.new result }
{
    acceptance::accept(g)?;
    check_accepted(g, table, room)
}
