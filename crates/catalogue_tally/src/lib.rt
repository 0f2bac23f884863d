// The figures of a catalogue, counted outcome by outcome.
#![tactic(auto)]

ghost use Rattle.std.specs.Prelude.{◌≡◌};
ghost use Rattle.std.specs.declared.result.Result.TheVariants.{Err};
ghost use Rattle.catalogue_tally.specs.Figures.{empty_tally, added, Modest, Roomy};

use game::Refusal;

// What a game comes to: the side that wins, with how many of its positions are won and how many there are.
#[derive(Clone, Copy)]
pub enum Counted {
    System(usize, usize),
    Environment(usize, usize),
}

// How many games the system wins, the environment wins, are refused; how many got each number; the won positions and all positions of
// the games not refused.
#[derive(Clone, Copy)]
pub struct Tally {
    pub system: usize,
    pub environment: usize,
    pub refused: usize,
    pub numbers: [usize; 256],
    pub won: usize,
    pub positions: usize,
}

// No outcome yet.
pub fn empty() -> Tally
    ensures { result ≡ empty_tally }
{
    Tally {
        system: 0,
        environment: 0,
        refused: 0,
        numbers: [0; 256],
        won: 0,
        positions: 0,
    }
}

// A refusal more.
fn add_refusal(t: Tally, r: Refusal) -> Tally
    requires { Roomy t }
    ensures { result ≡ added t (Err r) }
{
    let mut numbers = t.numbers;
    let i = u8::from(r) as usize;
    numbers[i] = numbers[i] + 1;
    Tally {
        system: t.system,
        environment: t.environment,
        refused: t.refused + 1,
        numbers: numbers,
        won: t.won,
        positions: t.positions,
    }
}

// An outcome more.
pub fn add(t: Tally, o: Result<Counted, Refusal>) -> Tally
    requires { Roomy t × Modest o }
    ensures { result ≡ added t o }
{
    match o {
        Ok(Counted::System(w, p)) => {
            let numbers = t.numbers;
            Tally {
                system: t.system + 1,
                environment: t.environment,
                refused: t.refused,
                numbers: numbers,
                won: t.won + w,
                positions: t.positions + p,
            }
        }
        Ok(Counted::Environment(w, p)) => {
            let numbers = t.numbers;
            Tally {
                system: t.system,
                environment: t.environment + 1,
                refused: t.refused,
                numbers: numbers,
                won: t.won + w,
                positions: t.positions + p,
            }
        }
        Err(r) => add_refusal(t, r),
    }
}
