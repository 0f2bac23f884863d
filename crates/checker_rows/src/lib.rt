// A controller's table as places: where each start and each row leads.
#![tactic(auto)]

ghost use Rattle.std.specs.Prelude.{◌≡◌, ◌≤◌, ◌<◌, length};
ghost use Rattle.bits.specs.Member.{has};
ghost use Rattle.sets.specs.Words.{capacity, set_at, bits_of};
ghost use Rattle.demands.specs.Demands.{play_of, controller_of};
ghost use Rattle.theory.specs.Entries.{answer};
ghost use Rattle.checker_places.specs.Place.{most_places, place_count, lead as leadOf, starting};
ghost use Rattle.checker_rows.specs.Rows.{Ready, Filled};

use checker_places::PLACES;
use game::{Game, InState, OutSet, OutState};

// The place that an entry leads to with the next input j, the outputs allowed being those of a set; 65,535 for an entry that is none.
fn lead(inputs: usize, counters: usize, allowed: OutSet, j: InState, entry: u16) -> u16
    requires { (0 < inputs) × (leadOf inputs counters (has (bits_of allowed.0)) j.0 (answer entry) ≤ 65535) }
    ensures { result ≡ leadOf inputs counters (has (bits_of allowed.0)) j.0 (answer entry) }
{
    match player_place::arrive(counters, allowed, j, entry) {
        Ok(p) => ((p.output.0 * counters + p.counter) * inputs + p.input.0) as u16,
        Err(_) => 65535,
    }
}

// Where the start of input i leads.
pub fn start(g: Game, counters: usize, table: &[u16], i: InState) -> u16
    requires { Ready g counters table.now × (i.0 < g.input.states) }
    ensures { result ≡ starting (play_of g) (controller_of g table.now) i.0 }
{
    let s = i.0;
    lead(g.input.states, counters, game::out_initial(g), i, table[s])
}

// The outputs that output o moves to. The rows are lent, not the game: a copy of it for each row of the table would cost more than the row.
fn replies(moves: &[u64; sets::ROW_WORDS], o: OutState) -> OutSet
    requires { o.0 < capacity }
    ensures { result ≡ record { 0 = set_at moves.now o.0 } }
{
    OutSet(sets::row_of(moves, o.0))
}

// Fills `to` with where each row leads.
pub fn fill(g: Game, counters: usize, places: usize, table: &[u16], to: &mut [u16; PLACES])
    requires { Ready g counters table.now × (places ≡ place_count (play_of g) counters) × (length to.old ≡ most_places) }
    ensures { Filled g table.now to.new places }
{
    let h = g.output;
    for r in 0..places {
        let inputs = g.input.states;
        let allowed = replies(&h.moves, OutState(r / inputs / counters));
        to[r] = lead(
            inputs,
            counters,
            allowed,
            InState(r % inputs),
            table[inputs + r],
        );
    }
}
