//! Numbers that only contracts see.
ghost use Rattle.std.specs.Prelude.{◌≡◌, ℕ, List};
ghost use base.Fml.{ftrue};

use std::marker::{Model, PhantomData};

/// The numbers of a slice at some time. It has no bytes and owns nothing, so only a clause ties `items`.
#[derive(Drop)]
pub struct Numbers {
    marker: PhantomData<()>,
    pub ghost items: { List ℕ },
}

impl Model for Numbers {
    ghost also_owns = { λ _. ftrue };
}

impl Numbers {
    pub(crate) fn of(numbers: &[u64]) -> Numbers
        ensures { result.items ≡ numbers.now }
    {
        let _ = numbers;
        Numbers {
            marker: PhantomData,
        }
    }
}
