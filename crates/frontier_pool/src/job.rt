//! The work that a sweep does.

/// A list of items, each to be done by one of several hands.
pub trait Toil: Sync {
    ghost use Rattle.std.specs.Prelude.{◌≡◌, ℕ, ◌<◌, List, [], ◌∷◌, ◌++◌};

    /// What one worker works with, and where it keeps what it did.
    type Hand: Send;

    /// What a hand has done, in order.
    ghost done: { Self.Hand → List ℕ };

    /// That the hand may work on this toil.
    ghost sound: { Self → Self.Hand → Type 0 };

    /// How many items there are.
    ghost count: { Self → ℕ };

    /// How many items there are. They are numbered from 0.
    fn items(&self) -> u32
        ensures { result ≡ count self.now };

    /// Does an item. Other hands do other items meanwhile.
    fn one(&self, hand: &mut Self::Hand, item: u32)
        requires item { item < count self.now }
        requires sound { sound self.now hand.old }
        ensures done { done hand.new ≡ done hand.old ++ item ∷ [] }
        ensures sound { sound self.now hand.new };
}
