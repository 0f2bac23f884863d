// The text of a game, read and written.
#![tactic(auto)]

ghost use Rattle.std.specs.Prelude.{◌≡◌};
ghost use Rattle.text.specs.declared.Unread.TheVariants.{Misshapen, Refused};
ghost use Rattle.text.specs.Write.{Writes};
ghost use Rattle.text.specs.Read.{Reads};

use game::{Game, Refusal};
use text_pieces::Fault;
use text_put::measure;
use text_scan::whole;

// Why a file is not read: it is no game's text, with the place of the fault (number 11), or the refusal.
#[derive(Clone, Copy, PartialEq, Eq)]
pub enum Unread {
    Misshapen(usize),
    Refused(Refusal),
}

impl From<Fault> for Unread {
    ghost from_gives = { λ f u. u ≡ Misshapen f.at };

    fn from(f: Fault) -> Unread {
        Unread::Misshapen(f.at)
    }
}

impl From<Refusal> for Unread {
    ghost from_gives = { λ r u. u ≡ Refused r };

    fn from(r: Refusal) -> Unread {
        Unread::Refused(r)
    }
}

// The game that a file describes. (SPEC 8.2, 9.4)
pub fn read(text: &[u8]) -> Result<Game, Unread>
    ensures { Reads text.now result }
{
    if 40960 < text.len() {
        return Err(Unread::Refused(Refusal::LongText));
    }
    let x = whole::game_at(text)?;
    if x.end != text.len() {
        return Err(Unread::Misshapen(x.end));
    }
    acceptance::accept(x.value)?;
    Ok(x.value)
}

// The text of a game, at the front of the buffer. (SPEC 8.2, 9.3)
pub fn write(g: Game, buffer: &mut [u8]) -> Result<usize, Refusal>
    ensures { Writes g buffer.old result buffer.new }
{
    acceptance::accept(g)?;
    let n = measure::game_length(g);
    if buffer.len() < n {
        return Err(Refusal::ShortText);
    }
    text_put::put_game(buffer, 0, g);
    Ok(n)
}
