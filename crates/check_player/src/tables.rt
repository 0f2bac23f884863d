// The controller's table of case 8, and the same with one entry changed.
ghost use Rattle.std.specs.Prelude.{◌≡◌, ◌<◌, length};

use table_entries::NONE;

// Starts, then rows by output, counter and input. An entry is next output + 128 × next counter.
pub const EIGHT: [u16; 30] = [
    0, NONE, NONE, 1, 1, 2, 129, 257, 130, 257, 1, 258, 0, 128, 0, 128, 128, 128, 256, 128, 256,
    NONE, NONE, 2, NONE, NONE, 2, NONE, NONE, 2,
];

pub fn with(k: usize, entry: u16) -> [u16; 30]
    requires { k < 30 }
    ensures { length result ≡ 30 }
{
    let mut t = EIGHT;
    t[k] = entry;
    t
}

// One entry more.
pub fn longer() -> [u16; 31] {
    let t = EIGHT;
    let mut r = [NONE; 31];
    for k in 0..30 {
        r[k] = t[k];
    }
    r
}
