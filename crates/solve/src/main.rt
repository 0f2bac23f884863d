// Reads a game's text from standard input and prints the side that wins and its table, or the refusal.
#![tactic(auto)]

ghost use Rattle.std.specs.Prelude.{◌≡◌, ℕ, ◌≤◌, List, length};
ghost use Rattle.game.specs.Acceptance.{acceptance, accepted};
ghost use Rattle.play.specs.Play.{separated_of};
ghost use Rattle.theory.specs.Choice.{guarantees, assumptions};
ghost use Rattle.print_tables.specs.Print.{controller_answer, environment_answer};
ghost use Rattle.prints.specs.Prints.{room_entries, game_print};
ghost use Rattle.text_put.specs.Put.{PutsWithin};
ghost use Rattle.files.specs.Front.{front_of, Within};
ghost use Rattle.solve.specs.Printed.{print_bytes, Printed, Goes};

use files::{Front, STDERR_FILENO, STDOUT_FILENO, Written};
use game::Game;
use prints::ROOM;
use std::rt::{Stdin, Stdout};
use text::Unread;

// How many bytes of a print there is place for.
const PRINT: usize = 1048576;

// Says on standard error that the print was not written whole, but not where nobody reads it any more. A program has no status to say so with.
fn tell_unwritten(output: &mut Stdout, written: bool) {
    if !written {
        if !files::is_unread(output) {
            io::write_all(STDERR_FILENO, b"solve: standard output cannot be written\n");
        }
    }
}

// The same of the file: it was not read to its end.
fn tell_unread(read: bool) {
    if !read {
        io::write_all(STDERR_FILENO, b"solve: standard input cannot be read\n");
    }
}

// Says on standard error what is waited for, where a person is to type it.
fn tell_waiting(input: &Stdin) {
    if files::typed(input) {
        io::write_all(
            STDERR_FILENO,
            b"solve: waiting for a game's text on standard input (Ctrl-D ends it)\n",
        );
    }
}

// Writes the print of the file that was read to standard output. This is the one function that does, but for the byte by which
// `files::is_unread` asks after a failure: the front is passed for what is asked alone.
fn print(fd: i32, f: Front, text: &[u8]) -> Written
    requires { Goes fd f text.now }
{
    files::write(fd, text)
}

// The same of the first n bytes of the buffer.
fn print_front(f: Front, buffer: &[u8; PRINT], n: usize) -> Written
    requires { (d : List ℕ) × Printed (front_of f) d n buffer.now }
{
    let text = &buffer[..];
    print(STDOUT_FILENO, f, &text[..n])
}

// The print of the controller's table.
fn put_system(buffer: &mut [u8], g: Game, table: &[u16]) -> usize
    requires { (acceptance g ≡ accepted) × (length table.now ≤ room_entries) }
    ensures { PutsWithin print_bytes buffer.old (controller_answer g.input.states g.output.states (length (guarantees (separated_of g)))
        table.now) result buffer.new }
{
    let sets = table_sizes::guarantee_count(g);
    print_tables::put_controller(buffer, g.input.states, g.output.states, sets, table)
}

// The print of the panel's table.
fn put_panel(buffer: &mut [u8], g: Game, table: &[u16]) -> usize
    requires { (acceptance g ≡ accepted) × (length table.now ≤ room_entries) }
    ensures { PutsWithin print_bytes buffer.old (environment_answer g.input.states g.output.states (length (assumptions (separated_of g)))
        table.now) result buffer.new }
{
    let sets = table_sizes::assumption_count(g);
    print_tables::put_environment(buffer, g.input.states, g.output.states, sets, table)
}

// A room, made by a function of its own so that no proof looks into its zeros.
fn empty_room() -> [u16; ROOM]
    ensures { room_entries ≡ length result }
{
    [0; ROOM]
}

// A buffer that holds every print.
fn empty_print() -> [u8; PRINT] {
    [0; PRINT]
}

// The print for an accepted game.
fn solve(buffer: &mut [u8], g: Game) -> usize
    requires { acceptance g ≡ accepted }
    ensures { PutsWithin print_bytes buffer.old (game_print g) result buffer.new }
{
    let mut scratch = [0u64; scratch::MOST];
    let mut refusal: u8 = 0;
    let mut system = false;
    let mut controller = empty_room();
    let mut panel = empty_room();
    let table = handover::solve(
        g,
        &mut scratch,
        &mut refusal,
        &mut system,
        &mut controller,
        &mut panel,
    );
    if refusal != 0 {
        return print_lines::put_refused(buffer, refusal);
    }
    let system_wins = system;
    if system_wins {
        return put_system(buffer, g, table);
    }
    put_panel(buffer, g, table)
}

// The print for a file.
fn answer(buffer: &mut [u8], file: &[u8]) -> usize
    requires { print_bytes ≤ length buffer.old }
    ensures { Printed file.now buffer.old result buffer.new }
{
    match text::read(file) {
        Ok(g) => solve(buffer, g),
        Err(Unread::Misshapen(p)) => print_lines::put_misshapen(buffer, p),
        Err(Unread::Refused(r)) => print_lines::put_refused(buffer, u8::from(r)),
    }
}

// The same of the file that was read, in the program's buffer.
fn put_answer(buffer: &mut [u8; PRINT], f: Front) -> usize
    requires { Within f }
    ensures { Printed (front_of f) buffer.old result buffer.new }
{
    let file = files::bytes(f);
    let n = files::len(f);
    answer(buffer, &file[..n])
}

// Prints the answer to the file that was read.
fn show(f: Front) -> Written
    requires { Within f }
{
    let mut buffer = empty_print();
    let n = put_answer(&mut buffer, f);
    print_front(f, &buffer, n)
}

fn main(rt: HostRuntime) {
    let mut input = rt.stdin();
    tell_waiting(&input);
    let f = files::read(&mut input);
    tell_unread(files::read_whole(f));
    let w = show(f);
    tell_unwritten(&mut rt.stdout(), files::written_whole(w));
}
