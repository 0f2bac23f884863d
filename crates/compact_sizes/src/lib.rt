// The length of the controller's table with its rows by component.
#![tactic(auto)]

ghost use Rattle.std.specs.Prelude.{◌≡◌};
ghost use Rattle.game.specs.Acceptance.{acceptance, accepted};
ghost use Rattle.play.specs.Play.{separated_of};
ghost use Rattle.compact.specs.Rank.{component_count};
ghost use Rattle.compact.specs.Compact.{compact_length};

use game::Game;

// How many entries the table has, for this many components.
pub fn compact_length(g: Game, components: usize) -> usize
    requires { (acceptance g ≡ accepted) × (components ≡ component_count (separated_of g)) }
    ensures { result ≡ compact_length (separated_of g) }
{
    let inputs = g.input.states;
    inputs + (inputs + g.output.states * table_sizes::controller_counters(g) * components)
}
