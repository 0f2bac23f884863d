// The entries of a table, 16 bits each. How an entry stands for an answer is known here alone.
#![tactic(auto)]

ghost use Rattle.std.specs.Prelude.{◌≡◌, ◌<◌};
ghost use Rattle.sets.specs.Words.{capacity};
ghost use Rattle.arena.specs.Table.{gives};
ghost use Rattle.theory.specs.Entries.{entry, entry_state, entry_counter};
ghost use Rattle.table_counters.specs.Counters.{most_counters};

// The entry of none.
pub const NONE: u16 = 65535;

// How far the entry of a state and a counter lies from that of the state and the next counter.
pub const STEP: u16 = 128;

// The entry of a state and a counter.
pub fn pack(state: usize, counter: usize) -> u16
    requires { (state < capacity) × (counter < most_counters) }
    ensures { result ≡ entry (gives counter state) }
{
    (state + STEP as usize * counter) as u16
}

// The state of an entry that is not none.
pub fn state(e: u16) -> usize
    ensures { result ≡ entry_state e }
{
    (e % STEP) as usize
}

// The counter of an entry that is not none.
pub fn counter(e: u16) -> usize
    ensures { result ≡ entry_counter e }
{
    (e / STEP) as usize
}
