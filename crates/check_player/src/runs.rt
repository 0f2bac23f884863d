// Runs of a player.
use game::{Game, InState, Refusal};
use player_place::Position;

// Begun with input 0 and stepped so many times with the same input; a refusal ends the run.
pub fn steady(g: Game, table: &[u16], next: InState, steps: usize) -> Result<Position, Refusal> {
    let mut at = player::begin(g, table, InState(0))?;
    for _step in 0..steps {
        at = player::step(g, table, at, next)?;
    }
    Ok(at)
}
