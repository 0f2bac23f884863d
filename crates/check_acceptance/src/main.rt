// Executed cases of acceptance: each line is a case's name and the number it is given, 0 for accepted.
#![tactic(auto)]

use games::{
    assumption, guarantee, in_initial, in_row, lengths, out_initial, out_initial_high, out_row,
    out_row_high, plain, used,
};
use show::show;

mod games; // games.rt: the games of the cases
mod pairs; // pairs.rt: two faults at once, of which the lower number is given
mod show; // show.rt: the line of a case

fn counts() {
    show(b"count 1 in both", plain(1, 1));
    show(b"count 64 in both", plain(64, 64));
    show(b"count 65 in both", plain(65, 65));
    show(b"count 128 in both", plain(128, 128));
    show(b"count 129 in input", plain(129, 2));
    show(b"count 129 in output", plain(2, 129));
    show(b"count 0 in input", plain(0, 2));
    show(b"count 0 in output", plain(2, 0));
}

fn initials() {
    let g = plain(2, 2);
    show(b"last state initial in input", in_initial(g, 2));
    show(b"initial state past the count in input", in_initial(g, 5));
    show(b"initial state past the count in output", out_initial(g, 4));
    show(
        b"state 63 of 2 initial in output",
        out_initial(g, 0x8000_0000_0000_0001),
    );
    show(
        b"state 64 of 65 initial in output",
        out_initial_high(plain(65, 65), 1),
    );
    show(
        b"state 65 of 65 initial in output",
        out_initial_high(plain(65, 65), 2),
    );
    show(
        b"state 127 of 2 initial in output",
        out_initial_high(g, 0x8000_0000_0000_0000),
    );
    show(b"no initial state in input", in_initial(g, 0));
    show(b"no initial state in output", out_initial(g, 0));
}

fn rows() {
    let g = plain(2, 2);
    show(b"move to the last state in input", in_row(g, 1, 2));
    show(b"move past the count in input", in_row(g, 1, 5));
    show(b"move past the count in output", out_row(g, 0, 4));
    show(b"row past the count in use in input", in_row(g, 2, 1));
    show(b"row 63 past the count in use in output", out_row(g, 63, 1));
    show(
        b"row 127 past the count in use in output",
        out_row(g, 127, 1),
    );
    show(
        b"move to state 127 of 128 in output",
        out_row_high(plain(128, 128), 127, 0x8000_0000_0000_0000),
    );
    show(
        b"move to state 127 of 127 in output",
        out_row_high(plain(127, 127), 126, 0x8000_0000_0000_0000),
    );
}

fn dead_ends() {
    let g = plain(64, 64);
    show(b"state 0 without a move in input", in_row(g, 0, 0));
    show(b"state 63 without a move in output", out_row(g, 63, 0));
    show(
        b"state 127 without a move in output",
        out_row(plain(128, 128), 127, 0),
    );
    show(b"row past the count without a move", plain(63, 63));
}

fn places() {
    let g = plain(2, 2);
    show(b"k 8", used(g, 8));
    show(b"k 9", used(g, 9));
    show(b"lengths 4", lengths(used(g, 1), 0, 4, 4));
    show(b"assumptions 5", lengths(used(g, 1), 0, 5, 0));
    show(b"guarantees 5", lengths(used(g, 1), 0, 0, 5));
    show(b"guarantees 5 in an unused place", lengths(g, 7, 0, 5));
}

fn sets() {
    let g = lengths(used(plain(3, 2), 1), 0, 1, 3);
    show(b"state 2 of 3 in an assumption", assumption(g, 0, 4));
    show(b"state 3 of 3 in an assumption", assumption(g, 0, 8));
    show(b"state 1 of 2 in a guarantee", guarantee(g, 2, 2));
    show(b"state 2 of 2 in a guarantee", guarantee(g, 2, 4));
    show(b"unused assumption not empty", assumption(g, 1, 1));
    show(b"unused guarantee not empty", guarantee(g, 3, 1));
}

fn unused() {
    let g = plain(2, 2);
    show(b"unused requirement with a length", lengths(g, 7, 1, 0));
    show(b"unused requirement with a set", guarantee(g, 0, 1));
}

fn main() {
    counts();
    initials();
    rows();
    dead_ends();
    places();
    sets();
    unused();
    pairs::graphs();
    pairs::lists();
}
