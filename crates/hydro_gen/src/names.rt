// Names of nodes and of a reservoir's quantities.
ghost use Rattle.std.specs.Prelude.{◌≡◌, ◌+◌, ◌<◌, [], ◌∷◌, IsAscii};
ghost use Rattle.hydro_gen.specs.Names.{reservoir_name, generated_node_name};

use hydro_form::digit;

// Builds the name of a reservoir's quantity: a letter and two digits, from 01.
#[tactic(auto, unfolding(crate::specs::Names::reservoir_name))]
pub(crate) fn reservoir_name(letter: u8, reservoir: u32) -> [u8; 3]
    requires letter { letter < 128 }
    requires few { reservoir < 10 }
    ensures value { result ≡ reservoir_name (letter ∷ []) reservoir }
    ensures ascii { IsAscii result }
{
    [letter, digit((reservoir + 1) / 10), digit(reservoir + 1)]
}

// The name of a node: its stage with three digits, from 001, and its kind.
#[tactic(auto, unfolding(crate::specs::Names::generated_node_name))]
pub(crate) fn node_name(node: u32) -> [u8; 6]
    requires { node < 2000 }
    ensures value { result ≡ generated_node_name node }
    ensures ascii { IsAscii result }
{
    let stage = node / 2 + 1;
    [
        b's',
        digit(stage / 100),
        digit(stage / 10),
        digit(stage),
        b'w',
        digit(node % 2),
    ]
}
