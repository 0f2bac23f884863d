// A stored controller's table moved from one layout to the other, no scratch lent.
#![tactic(auto)]

ghost use Rattle.std.specs.Prelude.{◌≡◌, true, ◌++◌, ◌≤◌, length, drop};
ghost use Rattle.game.specs.Acceptance.{acceptance, accepted};
ghost use Rattle.play.specs.Play.{separated_of};
ghost use Rattle.compact.specs.Rank.{component_count};
ghost use Rattle.compact.specs.Compact.{full_length, compact_length};
ghost use Rattle.compact.specs.Moving.{to_compact, from_compact, ranks_fit, rows_fit};
ghost use Rattle.compact_moves.specs.Promise.{MovedOver, MovedBack, Counted};

use game::{Game, Refusal};

// How many components the input graph has.
fn component_count(g: Game) -> usize
    requires { acceptance g ≡ accepted }
    ensures { result ≡ component_count (separated_of g) }
{
    graph_ranks::components(g, graph_ranks::leading(g))
}

// The front of room becomes the table in the compact layout; the rest stays.
fn write_compact(g: Game, components: usize, table: &[u16], room: &mut [u16])
    requires { (acceptance g ≡ accepted) × (components ≡ component_count (separated_of g)) × (length table.now ≡ full_length (separated_of g))
        × (rows_fit (separated_of g) table.now ≡ true) × (compact_length (separated_of g) ≤ length room.old) }
    ensures { room.new ≡ to_compact (separated_of g) table.now ++ drop (compact_length (separated_of g)) room.old }
{
    graph_ranks::write_ranks(g, room);
    let rows = g.output.states * table_sizes::controller_counters(g);
    compact_rows::fill_compact(table, g.input.states, components, rows, room);
}

// The front of room becomes the table in the full layout; the rest stays.
fn write_full(g: Game, components: usize, table: &[u16], room: &mut [u16])
    requires { (acceptance g ≡ accepted) × (components ≡ component_count (separated_of g)) × (length table.now ≡ compact_length (separated_of g))
        × (ranks_fit (separated_of g) table.now ≡ true) × (full_length (separated_of g) ≤ length room.old) }
    ensures { room.new ≡ from_compact (separated_of g) table.now ++ drop (full_length (separated_of g)) room.old }
{
    let rows = g.output.states * table_sizes::controller_counters(g);
    compact_rows::fill_full(table, g.input.states, components, rows, room);
}

// The move over for an accepted game.
fn over_accepted(g: Game, table: &[u16], room: &mut [u16]) -> Result<usize, Refusal>
    requires { acceptance g ≡ accepted }
    ensures { MovedOver g table.now room.old room.new result }
{
    if table.len() != table_sizes::controller_length(g) {
        return Err(Refusal::OtherLayout);
    }
    let leaders = graph_ranks::leading(g);
    if !compact_checks::rows_fit(g, leaders, table) {
        return Err(Refusal::RowsDiffer);
    }
    let components = graph_ranks::components(g, leaders);
    let n = compact_sizes::compact_length(g, components);
    if room.len() < n {
        return Err(Refusal::ShortController);
    }
    write_compact(g, components, table, room);
    Ok(n)
}

// The move back for an accepted game.
fn back_accepted(g: Game, table: &[u16], room: &mut [u16]) -> Result<usize, Refusal>
    requires { acceptance g ≡ accepted }
    ensures { MovedBack g table.now room.old room.new result }
{
    let components = component_count(g);
    if table.len() != compact_sizes::compact_length(g, components) {
        return Err(Refusal::OtherLayout);
    }
    if !graph_ranks::ranks_fit(g, table) {
        return Err(Refusal::OtherRanks);
    }
    let n = table_sizes::controller_length(g);
    if room.len() < n {
        return Err(Refusal::ShortController);
    }
    write_full(g, components, table, room);
    Ok(n)
}

// Writes a table of the full layout in the compact one into the front of the room. (SPEC 11.3)
pub fn to_compact(g: Game, table: &[u16], room: &mut [u16]) -> Result<usize, Refusal>
    ensures { MovedOver g table.now room.old room.new result }
{
    acceptance::accept(g)?;
    over_accepted(g, table, room)
}

// Writes a table of the compact layout in the full one into the front of the room. (SPEC 11.3)
pub fn to_full(g: Game, table: &[u16], room: &mut [u16]) -> Result<usize, Refusal>
    ensures { MovedBack g table.now room.old room.new result }
{
    acceptance::accept(g)?;
    back_accepted(g, table, room)
}

// How many components the input graph has: so a caller knows the compact layout's length. (SPEC 11.1)
pub fn count_components(g: Game) -> Result<usize, Refusal>
    ensures { Counted g result }
{
    let accepted = acceptance::accept(g);
    accepted?;
    Ok(component_count(g))
}
