//! The names of a plant's variables, by their positions.

ghost use Rattle.std.specs.Prelude.{◌≡◌, ◌<◌, length, slice_get, Some};

use crate::variables::{Name, Variables};
use std::marker::Model;

/// The names of variables, by their positions: those of the states come first, then those of the
/// inputs, then those of the noises.
#[derive(Drop)]
pub struct Names<'a> {
    pub(crate) variables: &'a Variables,
}

impl<'a> Model for Names<'a> {
    ghost use Rattle.std.specs.Prelude.{ℕ, List};
    ghost use Rattle.plant_record.specs.Parts.{variable_names};

    ghost Value = { List (List ℕ) };

    ghost view = { λ n. variable_names n.variables.now };
}

impl<'a> Names<'a> {
    /// The name of the variable at a position.
    pub fn name(&self, variable: u32) -> &'a Name
        requires { variable < length self.now }
        ensures { slice_get self.now variable ≡ Some result.now }
    {
        let i = variable as usize;
        let Variables {
            states,
            inputs,
            noises,
        } = self.variables;
        let input = states.len();
        let noise = input + inputs.len();
        if i < input {
            &states[i].name
        } else if i < noise {
            &inputs[i - input].name
        } else {
            &noises[i - noise].name
        }
    }
}
