// Reads texts from standard input, each behind its length in five digits, and writes a line for each: same where the game that is read
// is written back byte for byte, else the refusal.
#![tactic(auto)]

use text::Unread;

// Where the lines go.
const STDOUT_FILENO: i32 = 1;

const ZERO: usize = b'0' as usize;

const NINE: usize = b'9' as usize;

fn wide(b: u8) -> usize {
    b as usize
}

// The number that five digits stand for; 65,536 where they are none.
fn length_of(head: &[u8; 5]) -> usize {
    let mut n: usize = 0;
    for i in 0..5 {
        let b = wide(head[i]);
        if b < ZERO {
            return 65536;
        }
        if b > NINE {
            return 65536;
        }
        if n > 6553 {
            return 65536;
        }
        n = 10 * n + (b - ZERO);
    }
    n
}

// Whether the first n bytes of both are equal.
fn same(a: &[u8], b: &[u8], n: usize) -> bool {
    if a.len() < n {
        return false;
    }
    if b.len() < n {
        return false;
    }
    for i in 0..n {
        if a[i] != b[i] {
            return false;
        }
    }
    true
}

// The first n bytes of a line.
fn print(line: &[u8], n: usize) {
    if n <= line.len() {
        io::write_all(STDOUT_FILENO, &line[..n]);
    }
}

// The line of one text.
fn answer(file: &[u8]) {
    let mut line = [0u8; 160];
    match text::read(file) {
        Err(Unread::Misshapen(p)) => {
            let n = print_lines::put_misshapen(&mut line, p);
            print(&line, n);
        }
        Err(Unread::Refused(r)) => {
            let n = print_lines::put_refused(&mut line, u8::from(r));
            print(&line, n);
        }
        Ok(g) => {
            let mut out = io::large_buffer();
            if let Ok(n) = text::write(g, &mut out) {
                if n == file.len() && same(file, &out, n) {
                    io::write_all(STDOUT_FILENO, b"same\n");
                    return;
                }
            }
            io::write_all(STDOUT_FILENO, b"differs\n");
        }
    }
}

// The next text, into the front of the buffer: its length, or 65,536 where there is none.
fn load(file: &mut [u8]) -> usize {
    let mut head = [0u8; 5];
    if io::read_full(0, &mut head) != 5 {
        return 65536;
    }
    let n = length_of(&head);
    if n > file.len() {
        return 65536;
    }
    if io::read_full(0, &mut file[..n]) != n {
        return 65536;
    }
    n
}

// The line of the text in the first n bytes.
fn show(file: &[u8], n: usize) {
    if n <= file.len() {
        answer(&file[..n]);
    }
}

fn main() {
    let mut file = io::large_buffer();
    for _ in 0..1000000 {
        let n = load(&mut file);
        if n > 65535 {
            return;
        }
        show(&file, n);
    }
}
