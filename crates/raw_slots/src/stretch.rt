//! `Stretch`: slots that are filled chunk by chunk, side by side.
ghost use Rattle.std.specs.Prelude.{◌≡◌, ◌+◌, None, Some, length, map, replicate, IfOk};
ghost use Rattle.std.specs.Fork.{AcceptsAt, ChangesAt};
ghost use Rattle.std.specs.Thread.{IsSync, IsSend};
ghost use Rattle.std.specs.Vec.Ownership.{FitsInBlock};
ghost use Rattle.core.specs.Ptr.{ptr_add};

use crate::making::Making;
use crate::part::Part;
use std::alloc::AllocError;
use std::marker::{Send, Sync};
use std::thread::{Threads, join};

/// Empty slots for `count` chunks of a list, the first of which begins at the position `at`. Each element is `start` before `f`
/// changes it.
#[derive(Drop)]
pub(crate) struct Stretch<T> {
    pub(crate) at: usize,
    pub(crate) count: usize,
    pub(crate) start: T,
    pub(crate) part: Part<T>,
    ghost empty: { part.slots.contents ≡ replicate part.len None },
}

impl<T: Copy + Send> Stretch<T> {
    ghost use Rattle.raw_slots.specs.inside.Chunks.{AcceptsStretch, AreFilled, AreBothFilled};

    /// Fills it: a half beside the other, as long as there is depth left.
    #[cycle(halves)]
    pub(crate) fn fill<R: Threads + Sync, F: Fn(usize, &mut [T]) + Sync>(
        self,
        making: Making<'_, R, F>,
        depth: usize,
    ) -> (Part<T>, Result<(), AllocError>)
        requires fits { FitsInBlock T.row self.part.len }
        requires accepts { AcceptsStretch F.Fn making self }
        ensures address { (result.0.slots.at ≡ self.part.slots.at) × (result.0.len ≡ self.part.len) }
        ensures filled { IfOk result.1 (λ _. AreFilled F.Fn making.entry self result.0.slots.contents) }
    {
        if self.count == 1 {
            return self.fill_chunk(making);
        }
        let Stretch {
            at,
            count,
            start,
            part,
        } = self;
        let low = count / 2;
        let mid = low * making.size;
        let (front, back) = part.split(mid);
        let front = Stretch {
            at,
            count: low,
            start,
            part: front,
        };
        let back = Stretch {
            at: at + mid,
            count: count - low,
            start,
            part: back,
        };
        front.fill_both(back, making, depth)
    }

    /// Fills it and the one that lies after it.
    #[cycle(halves)]
    fn fill_both<R: Threads + Sync, F: Fn(usize, &mut [T]) + Sync>(
        self,
        next: Stretch<T>,
        making: Making<'_, R, F>,
        depth: usize,
    ) -> (Part<T>, Result<(), AllocError>)
        requires beside { next.part.slots.at ≡ ptr_add T.row self.part.len self.part.slots.at }
        requires fits { FitsInBlock T.row (self.part.len + next.part.len) }
        requires accepts { AcceptsStretch F.Fn making self }
        requires accepts_next { AcceptsStretch F.Fn making next }
        ensures address { (result.0.slots.at ≡ self.part.slots.at) × (result.0.len ≡ self.part.len + next.part.len) }
        ensures filled { IfOk result.1 (λ _. AreBothFilled F.Fn making.entry self next result.0.slots.contents) }
    {
        if depth == 0 {
            let (front, made) = self.fill(making, 0);
            let (back, made_back) = next.fill(making, 0);
            return (front.join(back), made.and(made_back));
        }
        let below = depth - 1;
        let first = move || -> (Part<T>, Result<(), AllocError>)
            requires threads { IsSync R.row × IsSync F.row × IsSend T.row }
            requires fits { FitsInBlock T.row self.part.len }
            requires accepts { AcceptsStretch F.Fn making self }
            ensures address { (result.0.slots.at ≡ self.part.slots.at) × (result.0.len ≡ self.part.len) }
            ensures filled { IfOk result.1 (λ _. AreFilled F.Fn making.entry self result.0.slots.contents) }
        { self.fill(making, below) };
        let second = move || -> (Part<T>, Result<(), AllocError>)
            requires threads { IsSync R.row × IsSync F.row × IsSend T.row }
            requires fits { FitsInBlock T.row next.part.len }
            requires accepts { AcceptsStretch F.Fn making next }
            ensures address { (result.0.slots.at ≡ next.part.slots.at) × (result.0.len ≡ next.part.len) }
            ensures filled { IfOk result.1 (λ _. AreFilled F.Fn making.entry next result.0.slots.contents) }
        { next.fill(making, below) };
        let ((front, made), (back, made_back)) = join(making.rt, first, second);
        (front.join(back), made.and(made_back))
    }

    /// Fills it, which is one chunk.
    fn fill_chunk<R, F: Fn(usize, &mut [T])>(
        self,
        making: Making<'_, R, F>,
    ) -> (Part<T>, Result<(), AllocError>)
        requires one { self.count ≡ 1 }
        requires accepts { AcceptsStretch F.Fn making self }
        ensures address { (result.0.slots.at ≡ self.part.slots.at) × (result.0.len ≡ self.part.len) }
        ensures filled { IfOk result.1 (λ _. AreFilled F.Fn making.entry self result.0.slots.contents) }
    {
        match self.make_chunk(making) {
            Ok(chunk) => {
                let mut part = self.part;
                part.write_all(&chunk);
                (part, Ok(()))
            }
            Err(error) => (self.part, Err(error)),
        }
    }

    /// Makes its one chunk in memory of its own.
    fn make_chunk<R, F: Fn(usize, &mut [T])>(
        &self,
        making: Making<'_, R, F>,
    ) -> Result<Vec<T>, AllocError>
        requires one { self.now.count ≡ 1 }
        requires accepts { AcceptsStretch F.Fn making self.now }
        ensures len { IfOk result (λ chunk. length chunk.items ≡ self.now.part.len) }
        ensures made { IfOk result (λ chunk. AreFilled F.Fn making.entry self.now (map Some chunk.items)) }
    {
        let mut chunk = Vec::with_capacity(making.alloc, self.part.len)?;
        chunk.resize(self.part.len, self.start)?;
        call_on(making.f, self.at, &mut chunk);
        Ok(chunk)
    }
}

/// Calls `f` with a chunk, which begins at a position.
fn call_on<T, F: Fn(usize, &mut [T])>(f: &F, at: usize, chunk: &mut [T])
    requires { AcceptsAt F.Fn f.now at chunk.old }
    ensures { ChangesAt F.Fn f.now at chunk.old chunk.new }
{
    f(at, chunk);
}
