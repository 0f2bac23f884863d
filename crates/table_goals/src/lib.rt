// The counters of a tour past sets, for both sides. Nothing here knows of sides.
#![tactic(auto)]

ghost use Rattle.std.specs.Prelude.{◌≡◌, ◌<◌};
ghost use Rattle.bits.specs.Member.{pack};
ghost use Rattle.sets.specs.Words.{bits_of};
ghost use Rattle.table_goals.specs.Goal.{Goals, passed_counter, aimed_at};
ghost use Rattle.table_goals.specs.Ranges.{Short, MetMore};

use sets::Set;
use table_counters::CounterSet;

// Some sets of a tour, one after the other: the first of them is number `from` of all. Of the four places `count` are in use.
#[derive(Clone, Copy)]
pub struct GoalRange {
    pub sets: [Set; 4],
    pub count: usize,
    pub from: usize,
}

// q, and the numbers of the sets of s that have a state in x: these are goals of a tour through x.
pub fn add_met(q: CounterSet, s: GoalRange, x: Set) -> CounterSet
    requires { Short s }
    ensures { MetMore s (bits_of x) q.0 s.count result.0 }
{
    let mut m = q;
    for j in 0..s.count {
        let y = s.sets[j];
        m = table_counters::insert_if(m, s.from + j, sets::meets(y, x));
    }
    m
}

// The counter after a move towards goal a: past it where the move landed there.
pub fn next_counter(count: usize, a: usize, landed: bool) -> usize
    requires { a < count }
    ensures { result ≡ passed_counter count landed a }
{
    if !landed {
        return a;
    }
    if a + 1 < count {
        return a + 1;
    }
    0
}

// The counters below count whose goal is a: those up to a from just past the goal before it. Before the first goal, going round, is the last.
pub fn counters_toward(q: CounterSet, count: usize, a: usize) -> CounterSet
    requires { Goals q.0 count 0 }
    ensures { result.0 ≡ pack count (aimed_at count q.0 a) }
{
    if a >= count {
        return table_counters::empty();
    }
    if !table_counters::member(q, a) {
        return table_counters::empty();
    }
    let upto = table_counters::below(a + 1);
    let earlier = table_counters::intersection(q, table_counters::below(a));
    if !table_counters::is_empty(earlier) {
        return table_counters::difference(
            upto,
            table_counters::below(table_counters::past(earlier)),
        );
    }
    let round = table_counters::difference(
        table_counters::below(count),
        table_counters::below(table_counters::past(q)),
    );
    table_counters::union(upto, round)
}
