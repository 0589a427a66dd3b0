//! `Block`: slots, which a clause sees as a list with a value or nothing at each.
ghost use Rattle.std.specs.Prelude.{◌≡◌, ◌<◌, Some, None, map, length, take, drop, replicate, get_or, slice_set, IfOk};
ghost use Rattle.std.specs.Fork.{AcceptsChunksMut};
ghost use Rattle.std.specs.Vec.Ownership.{FitsInBlock};
ghost use Rattle.raw_slots.specs.Slots.{IsFilled};
ghost use Rattle.raw_slots.specs.inside.Chunks.{AreFilledByChunks};

use crate::making::Making;
use crate::part::Part;
use crate::slots::{Deed, allocate, deallocate};
use crate::stretch::Stretch;
use std::alloc::{AllocError, Global};
use std::marker::{Model, Send, Sync};
use std::thread::Threads;
use std_alloc::room::may_hold;

/// Slots in one block of memory, which is given back when this is dropped.
pub struct Block<T: Copy> {
    pub(crate) part: Part<T>,
    deed: Deed<T, Global>,
    alloc: Global,
}

impl<T: Copy> Model for Block<T> {
    ghost use Rattle.std.specs.Prelude.{List, Option};

    ghost Value = { List (Option T) };

    ghost use Rattle.raw_slots.specs.inside.BlockParts.{IsWhole};

    ghost view = { λ b. b.part.slots.contents };

    ghost invariant = { λ b. IsWhole b };
}

impl<T: Copy> Block<T> {
    /// A block of `len` empty slots. They are not cleared.
    pub fn new(alloc: Global, len: usize) -> Result<Block<T>, AllocError>
        ensures empty { IfOk result (λ b. b ≡ replicate len None) }
        ensures fits { IfOk result (λ _. FitsInBlock T.row len) }
    {
        if !may_hold::<T>(len) {
            return Err(AllocError);
        }
        let (base, slots, deed) = allocate(&alloc, len)?;
        Ok(Block {
            part: Part { base, len, slots },
            deed,
            alloc,
        })
    }

    /// The same block, whose slots are empty, filled by chunks, each made of so many `start`.
    pub(crate) fn filled<R: Threads + Sync, F: Fn(usize, &mut [T]) + Sync>(
        self,
        making: Making<'_, R, F>,
        start: T,
        depth: usize,
    ) -> Result<Block<T>, AllocError>
    where
        T: Send,
        requires some { (0 < making.size) × (0 < length self) }
        requires empty { self ≡ replicate (length self) None }
        requires fits { FitsInBlock T.row (length self) }
        requires accepts { AcceptsChunksMut F.Fn making.f.now making.size (replicate (length self) start) }
        ensures { IfOk result (AreFilledByChunks F.Fn making.entry (replicate (length self) start)) }
    {
        let Block { part, deed, alloc } = self;
        let count = part.len.div_ceil(making.size);
        let stretch = Stretch {
            at: 0,
            count,
            start,
            part,
        };
        let (part, made) = stretch.fill(making, depth);
        let block = Block { part, deed, alloc };
        made?;
        Ok(block)
    }

    /// How many slots there are.
    pub fn len(&self) -> usize
        ensures { result ≡ length self.now }
    {
        self.part.len
    }

    /// Fills an empty slot.
    #[inline]
    pub fn write(&mut self, at: usize, value: T)
        requires { (at < length self.old) × (get_or self.old at None ≡ None) }
        ensures { self.new ≡ slice_set self.old at (Some value) }
    {
        self.part.write(at, value);
    }

    /// The `len` values from the slot `from` on.
    #[inline]
    pub fn slice(&self, from: usize, len: usize) -> &[T]
        requires { IsFilled self.now from len }
        ensures { take len (drop from self.now) ≡ map Some result.now }
    {
        self.part.slots.slice(self.part.base, from, len)
    }
}

impl<T: Copy> Drop for Block<T> {
    fn drop(self) {
        let Block { part, deed, alloc } = self;
        let Part { base, len, slots } = part;
        deallocate(&alloc, base, len, slots, deed);
    }
}
