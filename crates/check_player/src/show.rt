// The line of a case: its name, and the position or the refusal's number.
use game::Refusal;
use player_place::Position;

// Where the lines go.
const STDOUT_FILENO: i32 = 1;

fn number(n: usize) {
    io::write_all(STDOUT_FILENO, b" ");
    io::print_decimal(STDOUT_FILENO, n as u64);
}

fn position(p: Position) {
    io::write_all(STDOUT_FILENO, b": at");
    number(p.input.0);
    number(p.output.0);
    number(p.counter);
}

pub fn show(name: &[u8], a: Result<Position, Refusal>) {
    io::write_all(STDOUT_FILENO, name);
    match a {
        Ok(p) => position(p),
        Err(r) => {
            io::write_all(STDOUT_FILENO, b": refused");
            number(u8::from(r) as usize);
        }
    }
    io::write_all(STDOUT_FILENO, b"\n");
}
