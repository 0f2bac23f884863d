// Sets of states in words: state s belongs when the bit worth 2 to the power s is set.
#![tactic(auto)]

ghost use Rattle.std.specs.Prelude.{◌≡◌, not, ◌&&◌, ◌||◌, ℕ, ◌≤◌, ◌<◌, ◌≢◌, eqb, ltb};
ghost use Rattle.finite.specs.Bounded.{least, count as members};
ghost use Rattle.bits.specs.Member.{has, within as all_below, subset, sets_meet as meet};

// Whether state s belongs to x.
pub fn member(x: u64, s: usize) -> bool
    requires { s < 64 }
    ensures { result ≡ has x s }
{
    (x >> s) % 2 == 1
}

// x with state s.
pub fn insert(x: u64, s: usize) -> u64
    requires { s < 64 }
    ensures { (t : ℕ) → has result t ≡ (has x t || eqb t s) }
{
    x | (1u64 << s)
}

pub fn union(x: u64, y: u64) -> u64
    ensures { (s : ℕ) → has result s ≡ (has x s || has y s) }
{
    x | y
}

pub fn intersection(x: u64, y: u64) -> u64
    ensures { (s : ℕ) → has result s ≡ (has x s && has y s) }
{
    x & y
}

// The members of x that do not belong to y.
pub fn difference(x: u64, y: u64) -> u64
    ensures { (s : ℕ) → has result s ≡ (has x s && not (has y s)) }
{
    x ^ (x & y)
}

// Whether every member of x belongs to y.
pub fn is_subset(x: u64, y: u64) -> bool
    ensures { result ≡ subset 64 x y }
{
    x & y == x
}

// Whether some state belongs to both.
pub fn meets(x: u64, y: u64) -> bool
    ensures { result ≡ meet 64 x y }
{
    x & y != 0
}

// The lowest member; 64 for the empty set.
pub fn lowest(x: u64) -> usize
    ensures { result ≡ least 64 (has x) }
{
    u64::trailing_zeros(x) as usize
}

// x without its lowest member: one less has that bit clear, the bits above it as they are.
pub fn without_lowest(x: u64) -> u64
    requires { x ≢ 0 }
    ensures { (s : ℕ) → has result s ≡ (has x s && not (eqb s (least 64 (has x)))) }
{
    x & (x - 1)
}

// How many states belong to x.
pub fn count(x: u64) -> usize
    ensures { result ≡ members 64 (has x) }
{
    u64::count_ones(x) as usize
}

// Whether every member of x is below n.
pub fn within(x: u64, n: usize) -> bool
    ensures { result ≡ all_below x n }
{
    if n >= 64 {
        return true;
    }
    x >> n == 0
}

// The set of all states below n.
pub fn below(n: usize) -> u64
    requires { n ≤ 64 }
    ensures { (s : ℕ) → has result s ≡ ltb s n }
{
    if n == 64 {
        return 0xffff_ffff_ffff_ffff;
    }
    (1u64 << n) - 1
}

// x, with state s where the test holds.
pub fn insert_if(x: u64, s: usize, ok: bool) -> u64
    requires { s < 64 }
    ensures { (t : ℕ) → has result t ≡ (has x t || (ok && eqb t s)) }
{
    if ok {
        return insert(x, s);
    }
    x
}

// x, with the members of y where the test holds.
pub fn union_if(x: u64, y: u64, ok: bool) -> u64
    ensures { (s : ℕ) → has result s ≡ (has x s || (ok && has y s)) }
{
    if ok {
        return union(x, y);
    }
    x
}
