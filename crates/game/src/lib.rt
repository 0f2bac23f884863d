// The records of a game: two graphs and the requirements on them.
#![tactic(auto)]

ghost use Rattle.std.specs.Prelude.{◌≡◌, ◌<◌};
ghost use Rattle.sets.specs.Words.{capacity};
ghost use Rattle.game.specs.Refusals.{number};
ghost use Rattle.game.specs.Access.{in_moves, out_moves, assumption_at, guarantee_at, in_initial, out_initial};

use sets::Set;

// The number of an input state. (SPEC 1.4)
#[repr(C)]
#[derive(Clone, Copy)]
pub struct InState(pub usize);

// The number of an output state. (SPEC 1.4)
#[repr(C)]
#[derive(Clone, Copy)]
pub struct OutState(pub usize);

// A set of input states. (SPEC 1.4)
#[repr(C)]
#[derive(Clone, Copy)]
pub struct InSet(pub Set);

// A set of output states. (SPEC 1.4)
#[repr(C)]
#[derive(Clone, Copy)]
pub struct OutSet(pub Set);

// Row s of `moves`, two words, low states first, is the set of the states that state s moves to. (SPEC 1.6)
#[repr(C)]
#[derive(Clone, Copy)]
pub struct Graph {
    pub states: usize,
    pub initial: Set,
    pub moves: [u64; sets::ROW_WORDS],
}

// If every assumption is visited, every guarantee is. Of the four places each, `assumed` and `guaranteed` are in use. (SPEC 1.6)
#[repr(C)]
#[derive(Clone, Copy)]
pub struct Requirement {
    pub assumptions: [InSet; 4],
    pub assumed: usize,
    pub guarantees: [OutSet; 4],
    pub guaranteed: usize,
}

// Of the eight places for requirements k are in use. (SPEC 1.6)
#[repr(C)]
#[derive(Clone, Copy)]
pub struct Game {
    pub input: Graph,
    pub output: Graph,
    pub k: usize,
    pub requirements: [Requirement; 8],
}

// Why a call is refused, with the number of each in the list of docs/API.md. (SPEC 9.2, 9.3)
#[derive(Clone, Copy, PartialEq, Eq)]
pub enum Refusal {
    CountOutOfRange = 1, // a count of states not 1 to 128
    StatePastCount = 2, // a move or an initial state past the count, or a used row past it
    NoInitialState = 3, // a graph without an initial state
    TooManyRequirements = 5, // over 8 requirements; 4 does not occur
    TooManySets = 6, // over 4 sets in a requirement
    BadSet = 7, // a state past its count in a set, an unused set that is not empty, or sets in an unused requirement
    ShortScratch = 8, // scratch, a map, bars, a walk or grounds with too little room
    ShortController = 9, // too little room for the controller's table, or for one that is moved
    ShortPanel = 10, // too little room for the panel's table
    NoGame = 11, // bytes that are no text of a game
    LongText = 12, // a text over 40,960 bytes
    ShortText = 13, // too little room for a text
    NotAllowed = 14, // a state that cannot be picked now
    BadEntry = 15, // an entry that is none or names no counter or no move
    OtherTable = 16, // a table of another length, or a position that the game does not have
    CommandsOutOfRange = 17, // a count of commands not 1 to 16
    BadNextMode = 18, // a next mode that the drive does not have
    NotControllers = 19, // a table to check that has not the controller's length
    TooManyRows = 20, // over 4,096 rows for each input to check
    RowsDiffer = 21, // rows of one component that differ
    OtherRanks = 22, // ranks that are not the game's
    OtherLayout = 23, // a table to move that has not the length of its layout
    TooManyStates = 24, // over 32 states, on the joined positions
    NoPosition = 25, // a position to explain outside the game
    Unread = 26, // a file that could not be read
    TooManyNames = 27, // over 1,000 names
    NotOneRequirement = 28, // barred pairs with other than one requirement
    BarOutside = 29, // a barred pair outside the graphs
}

impl From<Refusal> for u8 {
    ghost from_gives = { λ r n. n ≡ number r };

    fn from(r: Refusal) -> u8 {
        r as u8
    }
}

// The answer to a game: nothing, or why it is refused.
pub type Acceptance = Result<(), Refusal>;

// The input states that i moves to.
pub fn in_moves(g: Game, i: InState) -> InSet
    requires { i.0 < capacity }
    ensures { result ≡ in_moves g i }
{
    let h = g.input;
    let s = i.0;
    InSet(sets::row_of(&h.moves, s))
}

// The output states that o moves to.
pub fn out_moves(g: Game, o: OutState) -> OutSet
    requires { o.0 < capacity }
    ensures { result ≡ out_moves g o }
{
    let h = g.output;
    let s = o.0;
    OutSet(sets::row_of(&h.moves, s))
}

// Assumption j of requirement r.
pub fn assumption(g: Game, r: usize, j: usize) -> InSet
    requires { (r < 8) × (j < 4) }
    ensures { result ≡ assumption_at g r j }
{
    let q = g.requirements[r];
    q.assumptions[j]
}

// Guarantee j of requirement r.
pub fn guarantee(g: Game, r: usize, j: usize) -> OutSet
    requires { (r < 8) × (j < 4) }
    ensures { result ≡ guarantee_at g r j }
{
    let q = g.requirements[r];
    q.guarantees[j]
}

pub fn in_initial(g: Game) -> InSet
    ensures { result ≡ in_initial g }
{
    let h = g.input;
    let x = h.initial;
    InSet(x)
}

pub fn out_initial(g: Game) -> OutSet
    ensures { result ≡ out_initial g }
{
    let h = g.output;
    let x = h.initial;
    OutSet(x)
}
