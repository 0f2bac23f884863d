// Sets of counters of a table. They are never passed for sets of states.
#![tactic(auto)]

ghost use Rattle.std.specs.Prelude.{◌≡◌, not, ◌&&◌, ◌||◌, ◌≢◌, ℕ, ◌≤◌, ◌<◌, eqb, ltb};
ghost use Rattle.finite.specs.Bounded.{least};
ghost use Rattle.bits.specs.Member.{has, subset};
ghost use Rattle.table_counters.specs.Counters.{counter_capacity, Past};

// How many counters a set can hold. A table has at most half of them.
pub const CAPACITY: usize = 64;

// Counter h belongs when the bit worth 2 to the power h is set.
#[derive(Clone, Copy)]
pub struct CounterSet(pub u64);

pub fn empty() -> CounterSet
    ensures { result.0 ≡ 0 }
{
    CounterSet(0)
}

pub fn is_empty(x: CounterSet) -> bool
    ensures { result ≡ eqb x.0 0 }
{
    x.0 == 0
}

// Whether counter h belongs to x.
pub fn member(x: CounterSet, h: usize) -> bool
    requires { h < counter_capacity }
    ensures { result ≡ has x.0 h }
{
    bits::member(x.0, h)
}

// x, with counter h where the test holds.
pub fn insert_if(x: CounterSet, h: usize, ok: bool) -> CounterSet
    requires { h < counter_capacity }
    ensures { (k : ℕ) → has result.0 k ≡ (has x.0 k || (ok && eqb k h)) }
{
    CounterSet(bits::insert_if(x.0, h, ok))
}

pub fn union(x: CounterSet, y: CounterSet) -> CounterSet
    ensures { (h : ℕ) → has result.0 h ≡ (has x.0 h || has y.0 h) }
{
    CounterSet(bits::union(x.0, y.0))
}

pub fn intersection(x: CounterSet, y: CounterSet) -> CounterSet
    ensures { (h : ℕ) → has result.0 h ≡ (has x.0 h && has y.0 h) }
{
    CounterSet(bits::intersection(x.0, y.0))
}

// The members of x that do not belong to y.
pub fn difference(x: CounterSet, y: CounterSet) -> CounterSet
    ensures { (h : ℕ) → has result.0 h ≡ (has x.0 h && not (has y.0 h)) }
{
    CounterSet(bits::difference(x.0, y.0))
}

// Whether x and y have the same members.
pub fn same(x: CounterSet, y: CounterSet) -> bool
    ensures { result ≡ eqb x.0 y.0 }
{
    x.0 == y.0
}

// Whether every member of x belongs to y.
pub fn is_subset(x: CounterSet, y: CounterSet) -> bool
    ensures { result ≡ subset counter_capacity x.0 y.0 }
{
    bits::is_subset(x.0, y.0)
}

// The lowest member; CAPACITY for the empty set.
pub fn lowest(x: CounterSet) -> usize
    ensures { result ≡ least counter_capacity (has x.0) }
{
    bits::lowest(x.0)
}

// x without its lowest member.
pub fn without_lowest(x: CounterSet) -> CounterSet
    requires { x.0 ≢ 0 }
    ensures { (h : ℕ) → has result.0 h ≡ (has x.0 h && not (eqb h (least counter_capacity (has x.0)))) }
{
    CounterSet(bits::without_lowest(x.0))
}

// The set of all counters below n.
pub fn below(n: usize) -> CounterSet
    requires { n ≤ counter_capacity }
    ensures { (h : ℕ) → has result.0 h ≡ ltb h n }
{
    CounterSet(bits::below(n))
}

// The counter just past the highest member of x; 0 for the empty set.
pub fn past(x: CounterSet) -> usize
    ensures { Past x.0 result }
{
    64 - u64::leading_zeros(x.0) as usize
}
