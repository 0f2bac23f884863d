// The sets of a game's requirements in one list, which can be lent: a game goes by value, and to read a requirement of it by its number would copy the rows
// of its graphs too. The list is a copy of the game's arrays of sets, of all eight requirements in the game's order, and holds nothing else: so M-103 is kept,
// which allows no array of over eight words but copies of the game's. It is the one copy that is made of them.
#![tactic(auto)]

ghost use Rattle.std.specs.Prelude.{◌≡◌, ◌<◌};
ghost use Rattle.sets.specs.Words.{bits_of};
ghost use Rattle.game_sets.specs.Lists.{in_set, out_set, Lists, Counts, SetsPut};

use game::{Game, InSet, OutSet, Requirement};

// How many words the sets of a game take: eight requirements of eight sets each, two words a set.
pub const WORDS: usize = 128;

// The sets of all requirements, in use or not: eight for each, its input sets, then its output sets. And how many of the four of each side are in use.
#[derive(Clone, Copy)]
pub struct Listed {
    pub sets: [u64; WORDS],
    pub assumed: [usize; 8],
    pub guaranteed: [usize; 8],
}

// Writes the sets of q as those of requirement r.
fn put(l: &mut [u64; WORDS], r: usize, q: Requirement)
    requires { r < 8 }
    ensures { SetsPut q r l.old l.new }
{
    for j in 0..4 {
        let x = q.assumptions[j];
        let y = q.guarantees[j];
        sets::put(l, 8 * r + j, x.0);
        sets::put(l, 8 * r + 4 + j, y.0);
    }
}

// The copy of a game's sets, those of requirements that are not in use too.
pub fn list_of(g: Game) -> Listed
    ensures { Lists g result.sets × Counts g result.assumed result.guaranteed }
{
    let requirements = g.requirements;
    let mut l: [u64; WORDS] = [0; WORDS];
    let mut assumed: [usize; 8] = [0; 8];
    let mut guaranteed: [usize; 8] = [0; 8];
    for r in 0..8 {
        let q = requirements[r];
        put(&mut l, r, q);
        assumed[r] = q.assumed;
        guaranteed[r] = q.guaranteed;
    }
    Listed {
        sets: l,
        assumed,
        guaranteed,
    }
}

// Input set j of requirement r, from the list.
pub fn assumption(l: &[u64; WORDS], r: usize, j: usize) -> InSet
    requires { (r < 8) × (j < 4) }
    ensures { bits_of result.0 ≡ in_set l.now r j }
{
    InSet(sets::row(l, 8 * r + j))
}

// Output set j of requirement r, from the list.
pub fn guarantee(l: &[u64; WORDS], r: usize, j: usize) -> OutSet
    requires { (r < 8) × (j < 4) }
    ensures { bits_of result.0 ≡ out_set l.now r j }
{
    OutSet(sets::row(l, 8 * r + 4 + j))
}
