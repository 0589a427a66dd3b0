//! `Divisor`: a divisor and its reciprocal.
ghost use Rattle.std.specs.Prelude.{◌≡◌, ◌/◌, ◌^◌, ◌<◌, ◌≤◌};

use std::marker::Model;

/// A divisor from 1 to 2^63 - 1. Seen as the number.
#[derive(Clone, Copy)]
pub struct Divisor {
    by: u64,
    /// How often the divisor goes into the greatest number of 64 bits.
    reciprocal: u64,
}

impl Model for Divisor {
    ghost use Rattle.std.specs.Prelude.{ℕ};
    ghost use Rattle.base.specs.inside.Reciprocals.{IsReady, reciprocal_of, ready};

    ghost Value = { ℕ };

    ghost view = { λ d. d.by };

    ghost invariant = { λ d. IsReady d.by d.reciprocal };

    ghost inverse = { λ n. record { by = n; reciprocal = reciprocal_of n } };

    ghost inverse_ok = { λ d kept. ready d kept };
}

impl Divisor {
    /// The divisor, made ready: its reciprocal takes the one division.
    #[inline]
    pub fn new(by: u64) -> Divisor
        requires some { 1 ≤ by }
        requires few { by < 2 ^ 63 }
        ensures { result ≡ by }
    {
        Divisor {
            by,
            reciprocal: u64::MAX / by,
        }
    }

    /// The quotient, rounded down, as `/` gives it.
    #[inline]
    pub fn quotient(&self, x: u64) -> u64
        ensures quotient { result ≡ x / self.now }
        ensures few { self.now < 2 ^ 63 }
    {
        // Too small by one at most (Granlund and Montgomery, Division by Invariant Integers using Multiplication, 1994).
        let near = (u128::from(x) * u128::from(self.reciprocal) >> 64) as u64;
        if x - near * self.by < self.by {
            near
        } else {
            near + 1
        }
    }
}
