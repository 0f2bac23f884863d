// Whether a kit is accepted: a test of its drives for each of 1, 17 and 18, then the numbers of its game.
#![tactic(auto)]

ghost use Rattle.std.specs.Prelude.{◌≡◌, ◌&&◌, ◌<◌, leb};
ghost use Rattle.sets.specs.Words.{capacity};
ghost use Rattle.finite.specs.Bounded.{all};
ghost use Rattle.kit_drives.specs.Acceptance.{modes_fit, commands_fit, entry_fits, entries_fit, both_drives, KitAccepts};

use game::{Acceptance, Refusal};
use kit_drives::{Drive, Kit};

// Whether a count is 1 to most.
fn count_fits(n: usize, most: usize) -> bool
    ensures { result ≡ (leb 1 n && leb n most) }
{
    if n < 1 {
        return false;
    }
    n <= most
}

fn modes_fit(k: Kit) -> bool
    ensures { result ≡ both_drives modes_fit k }
{
    if !count_fits(k.old.modes, sets::CAPACITY) {
        return false;
    }
    count_fits(k.new.modes, sets::CAPACITY)
}

fn commands_fit(k: Kit) -> bool
    ensures { result ≡ both_drives commands_fit k }
{
    if !count_fits(k.old.commands, 16) {
        return false;
    }
    count_fits(k.new.commands, 16)
}

// Whether the place of mode m and command u is barred, or within the counts and names a mode.
fn entry_fits(
    next: &[u8; kit_drives::NEXT],
    modes: usize,
    commands: usize,
    m: usize,
    u: usize,
) -> bool
    requires { (m < capacity) × (u < 16) }
    ensures { result ≡ entry_fits next.now modes commands m u }
{
    let t = kit_drives::next_mode(next, m, u);
    if t == 255 {
        return true;
    }
    if m >= modes {
        return false;
    }
    if u >= commands {
        return false;
    }
    t < modes
}

// Whether all places of mode m fit.
fn mode_fits(next: &[u8; kit_drives::NEXT], modes: usize, commands: usize, m: usize) -> bool
    requires { m < capacity }
    ensures { result ≡ all 16 (entry_fits next.now modes commands m) }
{
    for u in 0..16 {
        if !entry_fits(next, modes, commands, m, u) {
            return false;
        }
    }
    true
}

fn drive_fits(d: Drive) -> bool
    ensures { result ≡ entries_fit d }
{
    for m in 0..sets::CAPACITY {
        if !mode_fits(&d.next, d.modes, d.commands, m) {
            return false;
        }
    }
    true
}

fn entries_fit(k: Kit) -> bool
    ensures { result ≡ both_drives entries_fit k }
{
    if !drive_fits(k.old) {
        return false;
    }
    drive_fits(k.new)
}

// Refused with the first number that applies. (SPEC 13.1, 13.4)
pub fn accept_kit(k: Kit) -> Acceptance
    ensures { KitAccepts k result }
{
    if !modes_fit(k) {
        return Err(Refusal::CountOutOfRange);
    }
    if !commands_fit(k) {
        return Err(Refusal::CommandsOutOfRange);
    }
    if !entries_fit(k) {
        return Err(Refusal::BadNextMode);
    }
    acceptance::accept(kit_drives::game_of(k))
}
