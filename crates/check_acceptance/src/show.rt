// The line of a case.
use game::{Acceptance, Game};

// Where the lines go.
const STDOUT_FILENO: i32 = 1;

// 0 for accepted, else the refusal's number.
fn number(a: Acceptance) -> u64 {
    match a {
        Ok(()) => 0,
        Err(r) => u8::from(r) as u64,
    }
}

// Writes the case's name and the number that the game is given.
pub fn show(name: &[u8], g: Game) {
    io::write_all(STDOUT_FILENO, name);
    io::write_all(STDOUT_FILENO, b": ");
    io::print_decimal(STDOUT_FILENO, number(acceptance::accept(g)));
    io::write_all(STDOUT_FILENO, b"\n");
}
