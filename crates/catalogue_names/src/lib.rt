// A list split into names, a name a line, and how it is kept.
#![tactic(auto)]

ghost use Rattle.std.specs.Prelude.{◌≡◌, ◌+◌, ◌≤◌, ◌<◌, length, drop, [], ◌∷◌};
ghost use Rattle.catalogue_names.specs.Names.{names, front, has_zero, fit_name, NextName};
ghost use Rattle.catalogue_names.specs.Keeping.{Keeps, nothing};

// Where the name that begins at place `at` ends.
pub fn name_end(list: &[u8], at: usize) -> usize
    requires { at ≤ length list.now }
    ensures { result ≡ at + length (front (drop at list.now)) }
{
    for i in at..list.len() {
        if list[i] == b'\n' {
            return i;
        }
    }
    list.len()
}

// Where the name after the one that begins at place `at` begins, or the list's end.
pub fn next_name(list: &[u8], at: usize) -> usize
    requires { at < length list.now }
    ensures { NextName list.now at result }
{
    let end = name_end(list, at);
    if end < list.len() {
        return end + 1;
    }
    list.len()
}

// How many names a list has.
pub fn count_names(list: &[u8]) -> usize
    ensures { result ≡ length (names list.now) }
{
    let mut k: usize = 0;
    let mut at: usize = 0;
    while at < list.len() {
        at = next_name(list, at);
        k += 1;
    }
    k
}

// Whether a byte of the name is 0.
fn has_zero(name: &[u8]) -> bool
    ensures { result ≡ has_zero name.now }
{
    for b in name {
        if *b == 0 {
            return true;
        }
    }
    false
}

// Whether the name can name a file.
pub fn fit_name(name: &[u8]) -> bool
    ensures { result ≡ fit_name name.now }
{
    if 255 < name.len() {
        return false;
    }
    !has_zero(name)
}

// Where a list's buffer is kept to, and how many bytes of the name under way it keeps.
#[derive(Clone, Copy)]
pub struct Kept {
    pub len: usize,
    pub run: usize,
}

// Before anything is kept.
pub fn nothing_kept() -> Kept
    ensures { result ≡ nothing }
{
    Kept { len: 0, run: 0 }
}

// Keeps a byte of a list, but none of a name past its 256th.
fn keep_byte(list: &mut [u8], k: Kept, b: u8) -> Kept
    ensures { Keeps list.old k (b ∷ []) result list.new }
{
    if b == b'\n' {
        let len = text_put::put_byte(list, k.len, b);
        return Kept { len, run: 0 };
    }
    if 256 <= k.run {
        return k;
    }
    let len = text_put::put_byte(list, k.len, b);
    Kept {
        len,
        run: k.run + 1,
    }
}

// Keeps the bytes of a list's next part.
pub fn keep(list: &mut [u8], k: Kept, part: &[u8]) -> Kept
    ensures { Keeps list.old k part.now result list.new }
{
    let mut kept = k;
    for b in part {
        kept = keep_byte(list, kept, *b);
    }
    kept
}
