// Reads names of game files, a name a line, and prints the catalogue's figures.
#![tactic(auto)]

ghost use Rattle.std.specs.Prelude.{ℕ, ◌≤◌, ◌<◌, List, length};
ghost use Rattle.files.specs.Front.{Within};
ghost use Rattle.catalogue_names.specs.Names.{names};
ghost use Rattle.catalogue_tally.specs.Figures.{Modest};
ghost use Rattle.catalogue_lines.specs.Figures.{figures_bytes};
ghost use Rattle.catalogue.specs.Catalogue.{FromFront, FromOpen, ForName, Catalogued, Printed, MoreKept, InputKept, KeptPrinted, Goes};

use catalogue_names::Kept;
use catalogue_tally::{Counted, Tally};
use files::{Front, STDERR_FILENO, STDOUT_FILENO, Written};
use game::Refusal;
use prints::ROOM;
use std::fs::File;
use std::rt::{Stdin, Stdout};

// How many bytes of a list and of a print there is place for.
const LIST: usize = 262144;

const PRINT: usize = 32768;

// A room of the solver, made by a function of its own so that no proof looks into its zeros.
fn empty_room() -> [u16; ROOM] {
    [0; ROOM]
}

// A buffer that holds every print.
fn empty_print() -> [u8; PRINT] {
    [0; PRINT]
}

// A buffer for the list.
fn empty_list() -> [u8; LIST] {
    [0; LIST]
}

// Says on standard error what is waited for, where a person is to type it.
fn tell_waiting(input: &Stdin) {
    if files::typed(input) {
        io::write_all(
            STDERR_FILENO,
            b"catalogue: waiting for names of game files on standard input, one a line (Ctrl-D ends them)\n",
        );
    }
}

// Says on standard error that the list was not read to its end. A program has no status to say so with.
fn tell_unread(read: bool) {
    if !read {
        io::write_all(STDERR_FILENO, b"catalogue: standard input cannot be read\n");
    }
}

// The same of the figures: they were not written whole, though somebody may read them.
fn tell_unwritten(output: &mut Stdout, written: bool) {
    if !written {
        if !files::is_unread(output) {
            io::write_all(
                STDERR_FILENO,
                b"catalogue: standard output cannot be written\n",
            );
        }
    }
}

// What the file that was read comes to.
fn judge_front(
    f: Front,
    controller: &mut [u16; ROOM],
    panel: &mut [u16; ROOM],
) -> Result<Counted, Refusal>
    requires { Within f }
    ensures { FromFront f result × Modest result }
{
    if !files::read_whole(f) {
        return Err(Refusal::Unread);
    }
    let file = files::bytes(f);
    let n = files::len(f);
    catalogue_verdict::judge(&file[..n], controller, panel)
}

// What an open file comes to.
fn judge_open(
    file: &mut File,
    controller: &mut [u16; ROOM],
    panel: &mut [u16; ROOM],
) -> Result<Counted, Refusal>
    ensures { FromOpen result × Modest result }
{
    let f = files::read(file);
    judge_front(f, controller, panel)
}

// Opens the file of a name. A name that is no UTF-8 opens none: a path is text.
fn open(rt: &HostRuntime, name: &[u8]) -> Option<File> {
    match str::from_utf8(name) {
        Ok(path) => File::open(rt, path).ok(),
        Err(_) => None,
    }
}

// What the file of a name comes to.
fn judge_name(
    rt: &HostRuntime,
    name: &[u8],
    controller: &mut [u16; ROOM],
    panel: &mut [u16; ROOM],
) -> Result<Counted, Refusal>
    ensures { ForName name.now result × Modest result }
{
    if !catalogue_names::fit_name(name) {
        return Err(Refusal::Unread);
    }
    match open(rt, name) {
        None => Err(Refusal::Unread),
        Some(mut file) => judge_open(&mut file, controller, panel),
    }
}

// A line on standard error for each hundred names.
fn tell(terminal: bool, k: usize) {
    if terminal {
        if k % 100 == 0 {
            io::print_decimal(STDERR_FILENO, k as u64);
            io::write_all(STDERR_FILENO, b" files\n");
        }
    }
}

// The figures of a list of few enough names.
fn tally_names(
    rt: &HostRuntime,
    list: &[u8],
    controller: &mut [u16; ROOM],
    panel: &mut [u16; ROOM],
) -> Tally
    requires { length (names list.now) ≤ 1000 }
    ensures { Catalogued list.now result }
{
    let terminal = files::typed(&rt.stderr());
    let mut t = catalogue_tally::empty();
    let mut k: usize = 0;
    let mut at: usize = 0;
    while at < list.len() {
        let end = catalogue_names::name_end(list, at);
        let o = judge_name(rt, &list[at..end], controller, panel);
        t = catalogue_tally::add(t, o);
        at = catalogue_names::next_name(list, at);
        k += 1;
        tell(terminal, k);
    }
    t
}

// The print for a list.
fn answer(
    rt: &HostRuntime,
    buffer: &mut [u8],
    list: &[u8],
    controller: &mut [u16; ROOM],
    panel: &mut [u16; ROOM],
) -> usize
    requires { figures_bytes ≤ length buffer.old }
    ensures { Printed list.now buffer.old result buffer.new }
{
    if 1000 < catalogue_names::count_names(list) {
        return print_lines::put_refused(buffer, u8::from(Refusal::TooManyNames));
    }
    let t = tally_names(rt, list, controller, panel);
    catalogue_lines::put_figures(buffer, t)
}

// Whether standard input had a next part, and what is kept with it.
#[derive(Clone, Copy)]
struct Turn {
    more: bool,
    kept: Kept,
}

// Reads the next part of standard input and keeps it. A part that is not full is the last: standard input has ended there, or cannot be read.
fn keep_some(input: &mut Stdin, list: &mut [u8], k: Kept) -> Turn
    ensures { MoreKept list.old k result.kept list.new }
{
    let mut part = io::large_buffer();
    let n = files::fill(input, &mut part);
    let kept = catalogue_names::keep(list, k, &part[..n]);
    tell_unread(files::ended(input, n));
    Turn {
        more: n == files::BYTES,
        kept: kept,
    }
}

// Reads standard input to its end, or 2^48 bytes of it.
fn read_list(input: &mut Stdin, list: &mut [u8]) -> Kept
    ensures { InputKept list.new result }
{
    let mut kept = catalogue_names::nothing_kept();
    let mut turns: u64 = 4294967296;
    while turns > 0 {
        let t = keep_some(input, list, kept);
        kept = t.kept;
        if !t.more {
            break;
        }
        turns -= 1;
    }
    kept
}

// The same of an array.
fn fill_list(input: &mut Stdin, list: &mut [u8; LIST]) -> Kept
    ensures { InputKept list.new result }
{
    read_list(input, list)
}

// The print for standard input, from what is kept of it.
fn answer_kept(
    rt: &HostRuntime,
    buffer: &mut [u8],
    list: &[u8],
    k: Kept,
    controller: &mut [u16; ROOM],
    panel: &mut [u16; ROOM],
) -> usize
    requires { (257000 < length list.now) × InputKept list.now k × (figures_bytes ≤ length buffer.old) }
    ensures { KeptPrinted list.now k buffer.old result buffer.new }
{
    let n = k.len;
    answer(rt, buffer, &list[..n], controller, panel)
}

// The same, in the program's buffers.
fn put_answer(
    rt: &HostRuntime,
    buffer: &mut [u8; PRINT],
    list: &[u8; LIST],
    k: Kept,
    controller: &mut [u16; ROOM],
    panel: &mut [u16; ROOM],
) -> usize
    requires { InputKept list.now k }
    ensures { KeptPrinted list.now k buffer.old result buffer.new }
{
    answer_kept(rt, buffer, list, k, controller, panel)
}

// Writes the print for standard input to standard output. This is the one function that does, but for the byte by which
// `files::is_unread` asks after a failure: the list is passed for what is asked alone.
fn print(fd: i32, list: &[u8; LIST], k: Kept, text: &[u8]) -> Written
    requires { Goes fd list.now k text.now }
{
    files::write(fd, text)
}

// The same of the first n bytes of the buffer.
fn print_front(list: &[u8; LIST], k: Kept, buffer: &[u8; PRINT], n: usize) -> Written
    requires { (d : List ℕ) × KeptPrinted list.now k d n buffer.now }
{
    let text = &buffer[..];
    print(STDOUT_FILENO, list, k, &text[..n])
}

fn main(rt: HostRuntime) {
    let mut list = empty_list();
    let mut controller = empty_room();
    let mut panel = empty_room();
    let mut buffer = empty_print();
    let mut input = rt.stdin();
    tell_waiting(&input);
    let k = fill_list(&mut input, &mut list);
    let n = put_answer(&rt, &mut buffer, &list, k, &mut controller, &mut panel);
    let w = print_front(&list, k, &buffer, n);
    tell_unwritten(&mut rt.stdout(), files::written_whole(w));
}
