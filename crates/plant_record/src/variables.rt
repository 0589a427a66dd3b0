//! The variables of a plant.

ghost use Rattle.std.specs.Prelude.{◌≡◌, ◌<◌, ◌≤◌, length, IfOk, IfSome, IfNone, slice_get, Some, Contains};
ghost use Rattle.line_words.specs.Names.{IsName};
ghost use Rattle.base.specs.declared.limits.TheConstants.{VARIABLES_LIMIT};
ghost use Rattle.plant_record.specs.Parts.{variable_names};

use crate::variable_names::Names;
use std::alloc::{AllocError, Global};
use std::marker::Model;

/// The name of a variable.
#[derive(Drop)]
pub struct Name {
    bytes: Vec<u8>,
}

impl Model for Name {
    ghost use Rattle.std.specs.Prelude.{ℕ, List};
    ghost use Rattle.line_words.specs.Names.{IsName};

    ghost Value = { List ℕ };

    ghost view = { λ n. n.bytes.items };

    ghost invariant = { λ n. IsName n.bytes.items };
}

impl Name {
    /// The name that a word spells. It takes memory for a copy.
    pub fn new(alloc: Global, word: &[u8]) -> Result<Name, AllocError>
        requires { IsName word.now }
        ensures { IfOk result (λ name. name ≡ word.now) }
    {
        Ok(Name {
            bytes: Vec::from_slice(alloc, word)?,
        })
    }

    /// The bytes of the name, all of them letters, digits or `_`.
    pub fn as_bytes(&self) -> &[u8]
        ensures { result.now ≡ self.now }
    {
        &self.bytes
    }
}

/// The values that an input variable may take.
#[derive(Drop)]
pub struct Values {
    numbers: Vec<i128>,
}

impl Model for Values {
    ghost use Rattle.std.specs.Prelude.{ℤ, List};

    ghost Value = { List ℤ };

    ghost view = { λ v. v.numbers.items };
}

impl Values {
    /// These values, in the order in which input vectors count them.
    pub fn new(numbers: Vec<i128>) -> Values
        ensures { result ≡ numbers.items }
    {
        Values { numbers }
    }

    /// How many values there are.
    pub fn len(&self) -> usize
        ensures { result ≡ length self.now }
    {
        self.numbers.len()
    }

    /// The values, in their order.
    pub fn as_slice(&self) -> &[i128]
        ensures { result.now ≡ self.now }
    {
        &self.numbers
    }
}

/// A state, with its range and the width of a cell.
#[derive(Drop)]
pub struct StateVariable {
    pub name: Name,
    pub low: i128,
    pub high: i128,
    pub width: i128,
}

/// An input, with the values that it may take.
#[derive(Drop)]
pub struct InputVariable {
    pub name: Name,
    pub values: Values,
}

/// A disturbance, with its range.
#[derive(Drop)]
pub struct NoiseVariable {
    pub name: Name,
    pub low: i128,
    pub high: i128,
}

/// The variables of a plant: its states first, then its inputs, then its noises.
#[derive(Drop)]
pub struct Variables {
    pub states: Vec<StateVariable>,
    pub inputs: Vec<InputVariable>,
    pub noises: Vec<NoiseVariable>,
}

/// A variable of a plant: the state, the input or the noise at a position among those.
#[derive(Clone, Copy)]
pub enum Variable {
    State(u32),
    Input(u32),
    Noise(u32),
}

impl Variables {
    /// The names of all variables.
    pub fn names(&self) -> Names<'_>
        ensures { result ≡ variable_names self.now }
    {
        Names { variables: self }
    }

    /// The position of the variable of this name.
    pub fn position_of(&self, name: &[u8]) -> Option<u32>
        requires { length (variable_names self.now) ≤ VARIABLES_LIMIT }
        ensures found { IfSome result (λ i. slice_get (variable_names self.now) i ≡ Some name.now) }
        ensures none { IfNone result (Contains (variable_names self.now) name.now → ⊥) }
    {
        let names = self.names();
        let count = self.states.len() + self.inputs.len() + self.noises.len();
        for i in 0..count as u32 {
            if names.name(i).as_bytes() == name {
                return Some(i);
            }
        }
        None
    }
}
