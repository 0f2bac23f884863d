// Executed cases of the player: each line is a case's name and the position (input, output, counter) or the refusal's number.
#![tactic(auto)]

ghost use Rattle.std.specs.Prelude.{◌≤◌, ◌<◌};

use game::{InState, OutState};
use player_place::Position;
use runs::steady;
use show::show;
use table_entries::NONE;
use tables::{EIGHT, with};

mod games; // games.rt: the games
mod runs; // runs.rt: runs of a player
mod show; // show.rt: the line of a case
mod tables; // tables.rt: the tables

fn position(input: usize, output: usize, counter: usize) -> Position {
    Position {
        input: InState(input),
        output: OutState(output),
        counter,
    }
}

// Begun with an input on the front of the table with entry k changed.
fn begins(name: &[u8], length: usize, k: usize, entry: u16, first: usize)
    requires { (length ≤ 30) × (k < 30) }
{
    let t = with(k, entry);
    show(
        name,
        player::begin(games::eight(), &t[..length], InState(first)),
    );
}

// Stepped from a position with an input on the front of the table with entry k changed.
fn steps(name: &[u8], length: usize, k: usize, entry: u16, at: Position, next: usize)
    requires { (length ≤ 30) × (k < 30) }
{
    let t = with(k, entry);
    show(
        name,
        player::step(games::eight(), &t[..length], at, InState(next)),
    );
}

// Entry 1 is none: this changes nothing.
fn begins_whole(name: &[u8], first: usize) {
    begins(name, 30, 1, NONE, first);
}

fn steps_whole(name: &[u8], at: Position, next: usize) {
    steps(name, 30, 1, NONE, at, next);
}

fn beginnings() {
    begins_whole(b"begin with the initial input", 0);
    begins_whole(b"begin with another input", 1);
    begins_whole(b"begin with input 3 of 3", 3);
    begins_whole(b"begin with input 128", 128);
    begins_whole(b"begin with the largest number", 0xffff_ffff_ffff_ffff);
}

fn starts() {
    begins(b"start of none", 30, 0, NONE, 0);
    begins(b"start with the last counter", 30, 0, 256, 0);
    begins(b"start with a counter out of range", 30, 0, 384, 0);
    begins(b"start with the largest counter", 30, 0, 65408, 0);
    begins(b"start with an output that is not initial", 30, 0, 1, 0);
    begins(b"start with output 3 of 3", 30, 0, 3, 0);
    begins(b"damage that is not read", 30, 4, NONE, 0);
}

fn begins_longer(name: &[u8]) {
    let t = tables::longer();
    show(name, player::begin(games::eight(), &t, InState(0)));
}

fn steps_longer(name: &[u8]) {
    let t = tables::longer();
    show(
        name,
        player::step(games::eight(), &t, position(0, 0, 0), InState(1)),
    );
}

fn lengths() {
    begins(b"begin on a short table", 29, 1, NONE, 0);
    begins_longer(b"begin on a long table");
    begins(b"begin on an empty table", 0, 1, NONE, 0);
    steps(b"step on a short table", 29, 1, NONE, position(0, 0, 0), 1);
    steps_longer(b"step on a long table");
    steps(b"step on an empty table", 0, 1, NONE, position(0, 0, 0), 1);
}

fn moves() {
    steps_whole(b"step to input 1", position(0, 0, 0), 1);
    steps_whole(b"step to input 2", position(0, 0, 0), 2);
    steps_whole(b"step from input 1", position(1, 1, 2), 1);
    steps_whole(b"step to an input that is no move", position(0, 0, 0), 0);
    steps_whole(b"step to input 3 of 3", position(0, 0, 0), 3);
    steps_whole(b"step to input 128", position(0, 0, 0), 128);
    steps_whole(
        b"step to the largest number",
        position(0, 0, 0),
        0xffff_ffff_ffff_ffff,
    );
}

fn positions() {
    steps_whole(b"input 3 of 3 in the position", position(3, 0, 0), 1);
    steps_whole(b"output 3 of 3 in the position", position(0, 3, 0), 1);
    steps_whole(b"counter 3 of 3 in the position", position(0, 0, 3), 1);
    steps_whole(b"input 128 in the position", position(128, 0, 0), 1);
    steps_whole(b"output 128 in the position", position(0, 128, 0), 1);
    steps_whole(
        b"largest counter in the position",
        position(0, 0, 0xffff_ffff_ffff_ffff),
        1,
    );
}

// The row of output 0, counter 0 and input 1 is entry 4.
fn rows() {
    steps(b"row of none", 30, 4, NONE, position(0, 0, 0), 1);
    steps(
        b"row with the last counter",
        30,
        4,
        257,
        position(0, 0, 0),
        1,
    );
    steps(
        b"row with a counter out of range",
        30,
        4,
        385,
        position(0, 0, 0),
        1,
    );
    steps(
        b"row with an output that is no move",
        30,
        4,
        0,
        position(0, 0, 0),
        1,
    );
    steps(b"row with output 3 of 3", 30, 4, 3, position(0, 0, 0), 1);
    steps(b"row with output 127", 30, 4, 127, position(0, 0, 0), 1);
    steps(
        b"row of none for another input",
        30,
        5,
        NONE,
        position(0, 0, 0),
        1,
    );
    steps(
        b"row of none for another counter",
        30,
        7,
        NONE,
        position(0, 0, 0),
        1,
    );
    steps(
        b"row of none for another output",
        30,
        13,
        NONE,
        position(0, 0, 0),
        1,
    );
}

// 16 comes before 14, and 14 before 15.
fn order() {
    begins(b"length before input, at the start", 29, 1, NONE, 1);
    begins(b"input before row, at the start", 30, 1, NONE, 1);
    steps(b"length before input", 29, 1, NONE, position(0, 0, 0), 0);
    steps(b"position before input", 30, 1, NONE, position(0, 0, 3), 0);
    steps(b"position before row", 30, 4, NONE, position(3, 0, 0), 1);
    steps(b"input before row", 30, 3, NONE, position(0, 0, 0), 0);
}

// A fault of the game alone, and with every later fault of game, table, position and input.
fn refused(n: usize) {
    let t = EIGHT;
    let g = games::fault(games::eight(), n);
    show(b"begin in a refused game", player::begin(g, &t, InState(0)));
    show(
        b"step in a refused game",
        player::step(g, &t, position(0, 0, 0), InState(1)),
    );
    let f = games::faults(n);
    show(
        b"begin with all later faults",
        player::begin(f, &t[..29], InState(1)),
    );
    show(
        b"step with all later faults",
        player::step(f, &t[..29], position(3, 0, 0), InState(0)),
    );
}

fn refusals() {
    refused(1);
    refused(2);
    refused(3);
    refused(5);
    refused(6);
    refused(7);
}

// After a stuck input every next input gets 14; at a stuck output a row that names an output gets 15.
fn latches() {
    let t = EIGHT;
    let g = games::stuck_input(games::eight());
    let h = games::stuck_output(games::eight());
    show(
        b"begin in a game that latches",
        player::begin(g, &t, InState(0)),
    );
    show(
        b"step to a stuck input",
        player::step(g, &t, position(0, 0, 0), InState(1)),
    );
    show(
        b"step from a stuck input to itself",
        player::step(g, &t, position(1, 1, 0), InState(1)),
    );
    show(
        b"step from a stuck input to another",
        player::step(g, &t, position(1, 1, 0), InState(0)),
    );
    show(
        b"step to a stuck output",
        player::step(h, &t, position(0, 0, 0), InState(1)),
    );
    show(
        b"step from a stuck output",
        player::step(h, &t, position(1, 1, 0), InState(1)),
    );
}

// A run with one input on the table with entry k changed.
fn runs_on(name: &[u8], k: usize, entry: u16, next: usize, steps: usize)
    requires { k < 30 }
{
    let t = with(k, entry);
    show(name, steady(games::eight(), &t, InState(next), steps));
}

// The damage lies in the row that is read third: output 1, counter 0 and input 1, entry 13.
fn damages() {
    runs_on(b"third row whole", 13, 128, 1, 2);
    runs_on(b"third row of none", 13, NONE, 1, 2);
    runs_on(b"third row with a counter out of range", 13, 192, 1, 2);
    runs_on(b"third row with an output that is no move", 13, 65, 1, 2);
}

fn long_runs() {
    runs_on(b"10,000 steps with input 1", 1, NONE, 1, 10000);
    runs_on(b"10,001 steps with input 1", 1, NONE, 1, 10001);
    runs_on(b"10,000 steps with input 2", 1, NONE, 2, 10000);
    runs_on(b"a run over a row that is not read", 16, NONE, 1, 10000);
    runs_on(b"a run over a row of none, read fifth", 19, NONE, 1, 10000);
}

fn main() {
    beginnings();
    starts();
    lengths();
    moves();
    positions();
    rows();
    order();
    refusals();
    latches();
    damages();
    long_runs();
}
