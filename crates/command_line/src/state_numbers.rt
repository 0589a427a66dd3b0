ghost use Rattle.std.specs.Prelude.{◌≡◌, ◌<◌, [], ◌∷◌, ◌++◌, length};
ghost use Rattle.grid_quantiser.specs.Cells.{point_of};
ghost use Rattle.base.specs.declared.limits.TheConstants.{STATES_LIMIT};

use base::limits::STATES_LIMIT;
use grid_quantiser::Point;
use std::marker::Model;

/// The numbers of a state, six at most. Seen as their list.
#[derive(Clone, Copy, PartialEq, Eq)]
pub struct StateNumbers {
    six: Point,
    count: u32,
}

impl Model for StateNumbers {
    ghost use Rattle.std.specs.Prelude.{ℤ, List, length, take};
    ghost use Rattle.grid_quantiser.specs.Cells.{point_of};
    ghost use Rattle.command_line.specs.inside.StoredNumbers.{IsStored, view_of_inverse};

    ghost Value = { List ℤ };

    ghost view = { λ s. take s.count s.six };

    ghost invariant = { λ s. IsStored s.six s.count };

    ghost inverse = { λ numbers. record { six = point_of numbers; count = length numbers } };

    ghost inverse_ok = { λ s stored. view_of_inverse s stored };
}

impl StateNumbers {
    /// No number yet.
    pub fn empty() -> StateNumbers
        ensures { result ≡ [] }
    {
        StateNumbers {
            six: [0; STATES_LIMIT],
            count: 0,
        }
    }

    /// Puts a number after the others.
    pub fn push(&mut self, number: i128)
        requires { length self.old < STATES_LIMIT }
        ensures { self.new ≡ self.old ++ number ∷ [] }
    {
        self.six[self.count as usize] = number;
        self.count += 1;
    }

    /// How many numbers there are.
    pub fn count(&self) -> u32
        ensures { result ≡ length self.now }
    {
        self.count
    }

    /// The state, where there are as many numbers as states.
    pub fn point(&self) -> Point
        ensures { result ≡ point_of self.now }
    {
        self.six
    }
}
