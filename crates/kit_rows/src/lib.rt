// The kit's table, written from the controller's. Both begin with a start for each old mode. Then the controller's has a row for each output, counter
// and old mode. In place of its row number x the kit's has block number x: a row for each old command. Such a row says by a command what the
// controller does when that old command is given: what the controller's row of the mode that it leads to says by a mode.
#![tactic(auto)]

ghost use Rattle.std.specs.Prelude.{◌≡◌, ◌++◌, ◌+◌, ◌<◌, ◌≤◌, length, drop};
ghost use Rattle.sets.specs.Words.{capacity};
ghost use Rattle.kit_rows.specs.Rows.{kit_length, kit_entries, KitReady};
ghost use Rattle.kit_rows.specs.Writing.{lowest_in, commands_of, translated as translatedOf, Said, told, ReadsIn, ModeFits};
ghost use Rattle.kit_rows.specs.Writing.{Moded, CountFits, Counted, Outputs, Lent};
ghost use Rattle.scratch_clearing.specs.Clearing.{cleared};

use kit_drives::Kit;

// The new drive at one output: the mode that it is in, and how many commands it has.
#[derive(Clone, Copy)]
struct Origin {
    pub mode: usize,
    pub commands: usize,
}

// The lowest command that leads from o to t, the count of commands where none does.
fn lowest_command(next: &[u8; kit_drives::NEXT], commands: usize, o: usize, t: usize) -> usize
    requires { (commands ≤ 16) × (o < capacity) }
    ensures { result ≡ lowest_in next.now commands o t }
{
    for u in 0..commands {
        if kit_drives::next_mode(next, o, u) == t {
            return u;
        }
    }
    commands
}

// The entry that says by a command of the new drive what the controller's entry e says by a mode.
fn translated(new: &[u8; kit_drives::NEXT], from: Origin, e: u16) -> u16
    requires { (from.commands ≤ 16) × (from.mode < capacity) }
    ensures { result ≡ translatedOf (commands_of new.now from.commands from.mode) e }
{
    if e == table_entries::NONE {
        return table_entries::NONE;
    }
    let u = lowest_command(new, from.commands, from.mode, table_entries::state(e));
    (u + 16 * table_entries::counter(e)) as u16
}

// The controller's rows of one output and counter, which begin at base, said by commands: an entry for each old mode, at the front of kept. Every old
// command that leads to a mode has the same entry, so that its command is searched once. The caller lends kept: a list for all modes would be an array
// of over eight words (M-103).
fn translate(
    new: &[u8; kit_drives::NEXT],
    from: Origin,
    controller: &[u16],
    base: usize,
    modes: usize,
    kept: &mut [u64],
)
    requires { (from.commands ≤ 16) × (from.mode < capacity) × (base + modes ≤ length controller.now) × (modes ≤ length kept.old) }
    ensures { Said (commands_of new.now from.commands from.mode) controller.now base modes kept.old
        kept.new }
{
    for j in 0..modes {
        kept[j] = translated(new, from, controller[base + j]) as u64;
    }
}

// The row of old mode i and old command u: none where the command is barred, else the entry of the mode that it leads to.
fn row(next: &[u8; kit_drives::NEXT], kept: &[u64], i: usize, u: usize) -> u16
    requires { (i < capacity) × (u < 16) × ReadsIn next.now kept.now i u }
    ensures { result ≡ told next.now kept.now i u }
{
    let j = kit_drives::next_mode(next, i, u);
    if j == 255 {
        return table_entries::NONE;
    }
    kept[j] as u16
}

// The rows of old mode i, at the places from `at` on.
fn mode_rows(
    next: &[u8; kit_drives::NEXT],
    commands: usize,
    kept: &[u64],
    i: usize,
    room: &mut [u16],
    at: usize,
)
    requires { ModeFits next.now commands kept.now i at (length room.old) }
    ensures { Moded next.now commands kept.now i at commands room.old room.new }
{
    for u in 0..commands {
        room[at + u] = row(next, kept, i, u);
    }
}

// The rows of one output and one counter: a block for each old mode, from block number `first` on.
fn counter_rows(
    next: &[u8; kit_drives::NEXT],
    modes: usize,
    commands: usize,
    kept: &[u64],
    first: usize,
    room: &mut [u16],
)
    requires { CountFits next.now modes commands kept.now first (length room.old) }
    ensures { Counted next.now modes commands kept.now first modes room.old room.new }
{
    for i in 0..modes {
        mode_rows(
            next,
            commands,
            kept,
            i,
            room,
            modes + (first + i) * commands,
        );
    }
}

// The rows of output o.
fn output_rows(
    k: Kit,
    counters: usize,
    o: usize,
    controller: &[u16],
    kept: &mut [u64],
    room: &mut [u16],
)
    requires { KitReady k counters (length controller.now) (length room.old) × (o < k.new.modes) × (k.old.modes ≤ length kept.old) }
    ensures { Outputs k controller.now o (o + 1) room.old room.new
        × Lent k.old.modes kept.old kept.new }
{
    let old = k.old;
    let new = k.new;
    let from = Origin {
        mode: o,
        commands: new.commands,
    };
    for c in 0..counters {
        let first = (o * counters + c) * old.modes;
        translate(
            &new.next,
            from,
            controller,
            old.modes + first,
            old.modes,
            kept,
        );
        counter_rows(&old.next, old.modes, old.commands, kept, first, room);
    }
}

// The front of room becomes the kit's table; the rest stays. The front of scratch is used, and cleared.
pub fn fill(k: Kit, counters: usize, controller: &[u16], scratch: &mut [u64], room: &mut [u16])
    requires { KitReady k counters (length controller.now) (length room.old) × (k.old.modes ≤ length scratch.old) }
    ensures { (room.new ≡ kit_entries k controller.now ++ drop (kit_length k) room.old)
        × (scratch.new ≡ cleared k.old.modes scratch.old) }
{
    compact_rows::starts(k.old.modes, controller, room);
    let outputs = k.new.modes;
    for o in 0..outputs {
        output_rows(k, counters, o, controller, scratch, room);
    }
    scratch_clearing::clear(scratch, k.old.modes);
}
