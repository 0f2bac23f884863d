// The front of a file that is open, read in one go, and bytes written whole.
#![tactic(auto)]

ghost use Rattle.std.specs.Prelude.{◌≡◌, ◌≤◌, length};
ghost use Rattle.files.specs.Front.{Within};

use std::io::{ErrorKind, IsTerminal, Read, Write};

// Where what is printed goes, and what is said beside it.
pub const STDOUT_FILENO: i32 = 1;

pub const STDERR_FILENO: i32 = 2;

// How many bytes are read: more than a game's text may have, so that a longer file shows.
pub const BYTES: usize = 65536;

// What reading a file gave: its first bytes, how many they are, and whether it was read to its end or on to BYTES. The fields are private: `read`
// alone makes a front, so whoever has one has what was read.
#[derive(Clone, Copy)]
pub struct Front {
    bytes: [u8; BYTES],
    len: usize,
    whole: bool,
}

// Whether bytes were written whole. Its field is private: `write` alone makes one, so whoever has one has called that.
#[derive(Clone, Copy)]
pub struct Written {
    whole: bool,
}

// Fills a buffer from its front until it is full, the source ends or a read fails: how many bytes were read.
pub fn fill<S: Read>(source: &mut S, buffer: &mut [u8]) -> usize
    ensures { result ≤ length buffer.new }
{
    let mut n = 0;
    while n < buffer.len() {
        match source.read(&mut buffer[n..]) {
            Ok(0) => break,
            Ok(k) => n += k,
            Err(_) => break,
        }
    }
    n
}

// Whether the reading that gave n bytes of BYTES ended with the file, and did not fail: one more read tells. A terminal, which would ask for its end a
// second time, is believed.
pub fn ended<S: Read + IsTerminal>(source: &mut S, n: usize) -> bool {
    if n == BYTES {
        return true;
    }
    if source.is_terminal() {
        return true;
    }
    let mut more = [0u8; 1];
    source.read(&mut more).is_ok()
}

// Reads the front of an open file.
pub fn read<S: Read + IsTerminal>(source: &mut S) -> Front
    ensures { Within result }
{
    let mut bytes = io::large_buffer();
    let n = fill(source, &mut bytes);
    let whole = ended(source, n);
    Front {
        bytes: bytes,
        len: n,
        whole: whole,
    }
}

pub fn bytes(f: Front) -> [u8; BYTES]
    ensures { result ≡ f.bytes }
{
    f.bytes
}

pub fn len(f: Front) -> usize
    ensures { result ≡ f.len }
{
    f.len
}

pub fn read_whole(f: Front) -> bool
    ensures { result ≡ f.whole }
{
    f.whole
}

// Writes all bytes of a text.
pub fn write(fd: i32, text: &[u8]) -> Written {
    let whole = io::write_all(fd, text);
    Written { whole: whole }
}

pub fn written_whole(w: Written) -> bool
    ensures { result ≡ w.whole }
{
    w.whole
}

// Whether nobody reads any more what goes to a pipe: one more byte is refused for that reason. Asked only after a write that failed.
pub fn is_unread<W: Write>(out: &mut W) -> bool {
    match out.write(b"\n") {
        Ok(_) => false,
        Err(e) => e.kind() == ErrorKind::BrokenPipe,
    }
}

// Whether a person is typing.
pub fn typed<S: IsTerminal>(source: &S) -> bool {
    source.is_terminal()
}
