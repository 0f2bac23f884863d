// Two faults at once: the lower number is given, whichever graph has it.
use crate::games::{guarantee, in_initial, in_row, lengths, out_initial, out_row, plain, used};
use crate::show::show;

pub fn graphs() {
    let g = plain(2, 2);
    show(b"1 in output and 2 in input", in_row(plain(2, 129), 0, 4));
    show(
        b"1 in input, no move in output",
        out_row(plain(129, 2), 1, 0),
    );
    show(
        b"2 in output and 3 in input",
        in_initial(out_row(g, 0, 4), 0),
    );
    show(
        b"2 in input and 3 in output",
        out_initial(in_row(g, 0, 4), 0),
    );
    show(
        b"3 in output, no move in input",
        out_initial(in_row(g, 1, 0), 0),
    );
}

pub fn lists() {
    let g = plain(2, 2);
    show(b"no move in output and 5", used(out_row(g, 1, 0), 9));
    show(b"5 and 6", used(lengths(g, 0, 5, 0), 9));
    show(b"5 and 7", used(guarantee(g, 0, 1), 9));
    show(b"6 and 7", lengths(guarantee(g, 0, 1), 0, 5, 0));
    show(b"1 in output and 7", guarantee(plain(2, 0), 0, 1));
    show(b"2 in output and 6", lengths(out_row(g, 5, 1), 3, 5, 5));
}
