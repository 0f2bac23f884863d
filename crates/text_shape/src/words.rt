// The fixed words, in one table that the reader and the writer share.
ghost use Rattle.std.specs.Prelude.{◌≡◌, ◌<◌, length, get_or};
ghost use Rattle.text_shape.specs.Text.{word};
ghost use Rattle.text_shape.specs.Shape.{opening};

// The letters of a word, filled up with blanks, and how many they are.
#[derive(Clone, Copy)]
struct Word {
    bytes: [u8; 11],
    length: usize,
}

const WORDS: [Word; 10] = [
    Word {
        bytes: *b"game       ",
        length: 4,
    },
    Word {
        bytes: *b"in         ",
        length: 2,
    },
    Word {
        bytes: *b"out        ",
        length: 3,
    },
    Word {
        bytes: *b"if         ",
        length: 2,
    },
    Word {
        bytes: *b"wins       ",
        length: 4,
    },
    Word {
        bytes: *b"start      ",
        length: 5,
    },
    Word {
        bytes: *b"step       ",
        length: 4,
    },
    Word {
        bytes: *b"refused    ",
        length: 7,
    },
    Word {
        bytes: *b"system     ",
        length: 6,
    },
    Word {
        bytes: *b"environment",
        length: 11,
    },
];

// How many letters the word w has.
pub fn letters(w: usize) -> usize
    requires { w < 10 }
    ensures { result ≡ length (word w) }
{
    let x = WORDS[w];
    x.length
}

// Letter i of the word w.
pub fn letter(w: usize, i: usize) -> u8
    requires { (w < 10) × (i < length (word w)) }
    ensures { result ≡ get_or (word w) i 0 }
{
    let x = WORDS[w];
    let bytes = x.bytes;
    bytes[i]
}

// Byte k of the opening bracket, the word w and a blank.
pub fn opening_byte(w: usize, k: usize) -> u8
    requires { (w < 10) × (k < length (opening w)) }
    ensures { result ≡ get_or (opening w) k 0 }
{
    if k == 0 {
        return b'(';
    }
    let n = letters(w);
    if k <= n {
        return letter(w, k - 1);
    }
    b' '
}
