//! The box of a pair as it is kept: two numbers, the greatest there are where there is no box.
ghost use Rattle.std.specs.Prelude.{◌≡◌, ◌↔◌, ◌*◌, ◌^◌, ◌<◌, ◌≤◌, IfSome, IsTrue};
ghost use Rattle.grid_quantiser.specs.ExtentBoxes.{one_cell};
ghost use Rattle.pair_box.specs.Sums.{term, plus};
ghost use Rattle.pair_box.specs.inside.BoxWords.{word_of};
ghost use Rattle.pair_box.specs.declared.pair_box.TheConstants.{SUMS_LIMIT};

use grid_quantiser::{CellBox, Extent};
use std::marker::Model;

/// Both numbers where there is no box.
const NO_BOX: u32 = u32::MAX;

/// Past the last cell of every sum of terms.
pub const SUMS_LIMIT: u32 = 0x1000_0000;

/// What the last cell counts in the word of both numbers.
const LAST_UNIT: u64 = 1 << 32;

/// The box of a pair, or none, in 8 bytes.
#[derive(Clone, Copy)]
pub struct PairBox {
    first: u32,
    last: u32,
}

impl Model for PairBox {
    ghost use Rattle.std.specs.Prelude.{Option};
    ghost use Rattle.grid_quantiser.specs.declared.boxes.CellBox.{CellBox};
    ghost use Rattle.pair_box.specs.Packed.{box_in, IsPacked, first_in, last_in, unpacked};

    ghost Value = { Option CellBox };

    ghost view = { λ p. box_in p.first p.last };

    ghost invariant = { λ p. IsPacked p.first p.last };

    ghost inverse = { λ b. record { first = first_in b; last = last_in b } };

    ghost inverse_ok = { λ p kept. unpacked p kept };
}

impl PairBox {
    /// The one cell on no axis, which adds nothing.
    pub const ONE_CELL: PairBox = PairBox { first: 0, last: 0 };

    /// No box.
    const NONE: PairBox = PairBox {
        first: NO_BOX,
        last: NO_BOX,
    };

    /// The box, where there is one.
    #[inline]
    pub fn get(&self) -> Option<CellBox>
        ensures { result ≡ self.now }
    {
        if self.first == NO_BOX {
            return None;
        }
        Some(CellBox {
            first: self.first,
            last: self.last,
        })
    }

    /// Whether it is the one cell on no axis, which adds nothing.
    #[inline]
    pub fn is_one_cell(&self) -> bool
        ensures { IsTrue result ↔ (self.now ≡ one_cell) }
    {
        self.first == 0 && self.last == 0
    }

    /// What an extent adds to a box, along an axis of which one index makes so many cells: none where the extent is missing.
    #[inline]
    pub fn term(extent: Option<Extent>, stride: u32) -> PairBox
        requires { IfSome extent (λ s. (s.first ≤ s.last) × (s.last * stride < SUMS_LIMIT)) }
        ensures { result ≡ term stride extent }
    {
        let Some(extent) = extent else {
            return PairBox::NONE;
        };
        PairBox {
            first: extent.first * stride,
            last: extent.last * stride,
        }
    }

    /// The sum of two boxes, end by end: none where one of the two is missing. Both ends are added at once, in one word,
    /// and what is added to the greatest word stays that.
    #[inline]
    pub fn plus(self, other: PairBox) -> PairBox
        requires one { IfSome self (λ b. b.last < SUMS_LIMIT) }
        requires other { IfSome other (λ b. b.last < SUMS_LIMIT) }
        ensures { result ≡ plus self other }
    {
        let sum = self.word().saturating_add(other.word());
        PairBox {
            first: (sum % LAST_UNIT) as u32,
            last: (sum / LAST_UNIT) as u32,
        }
    }

    /// Both numbers in one word.
    #[inline]
    fn word(self) -> u64
        ensures word { result ≡ word_of self }
        ensures ordered { IfSome self (λ b. b.first ≤ b.last) }
    {
        u64::from(self.last) * LAST_UNIT + u64::from(self.first)
    }
}
