//! `Part`: slots side by side, with where they begin.
ghost use Rattle.std.specs.Prelude.{◌≡◌, ◌+◌, ◌<◌, ◌≤◌, ◌++◌, Some, None, map, length, take, drop, replicate, slice_set, get_or};
ghost use Rattle.std.specs.Vec.Ownership.{FitsInBlock};
ghost use Rattle.core.specs.Ptr.{ptr_add};

use crate::slots::{Base, Slots};

/// Slots side by side in a block.
#[derive(Drop)]
pub(crate) struct Part<T> {
    pub(crate) base: Base<T>,
    pub(crate) len: usize,
    pub(crate) slots: Slots<T>,
    ghost whole: { (slots.at ≡ base.ptr) × (length slots.contents ≡ len) },
}

impl<T> Part<T> {
    /// The slots before `mid`, and those from it on.
    pub(crate) fn split(self, mid: usize) -> (Part<T>, Part<T>)
        requires { mid ≤ self.len }
        ensures front { (result.0.slots.at ≡ self.slots.at) × (result.0.slots.contents ≡ take mid self.slots.contents) }
        ensures next { result.1.slots.at ≡ ptr_add T.row mid self.slots.at }
        ensures back { result.1.slots.contents ≡ drop mid self.slots.contents }
    {
        let Part { base, len, slots } = self;
        let (front, next, back) = slots.split(base, mid);
        (
            Part {
                base,
                len: mid,
                slots: front,
            },
            Part {
                base: next,
                len: len - mid,
                slots: back,
            },
        )
    }

    /// The slots of two parts that lie side by side.
    pub(crate) fn join(self, other: Part<T>) -> Part<T>
        requires beside { other.slots.at ≡ ptr_add T.row self.len self.slots.at }
        requires fits { FitsInBlock T.row (self.len + other.len) }
        ensures address { result.slots.at ≡ self.slots.at }
        ensures contents { result.slots.contents ≡ self.slots.contents ++ other.slots.contents }
    {
        let Part { base, len, slots } = self;
        let Part {
            base: _,
            len: more,
            slots: others,
        } = other;
        Part {
            base,
            len: len + more,
            slots: slots.join(others),
        }
    }

    /// Fills an empty slot.
    pub(crate) fn write(&mut self, at: usize, value: T)
        requires { (at < length self.old.slots.contents) × (get_or self.old.slots.contents at None ≡ None) }
        ensures address { self.new.slots.at ≡ self.old.slots.at }
        ensures contents { self.new.slots.contents ≡ slice_set self.old.slots.contents at (Some value) }
    {
        self.slots.write(self.base, at, value);
    }

    /// Fills all slots, which are empty.
    pub(crate) fn write_all(&mut self, items: &[T])
    where
        T: Copy,
        requires { self.old.slots.contents ≡ replicate (length items.now) None }
        ensures address { self.new.slots.at ≡ self.old.slots.at }
        ensures contents { self.new.slots.contents ≡ map Some items.now }
    {
        for k in 0..items.len() {
            self.write(k, items[k]);
        }
    }
}
