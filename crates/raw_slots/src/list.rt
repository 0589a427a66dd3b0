//! `RawList`: a list in one block of memory, made by chunks.
ghost use Rattle.std.specs.Prelude.{◌≡◌, ◌<◌, length, replicate, IfOk};
ghost use Rattle.std.specs.Fork.{AcceptsChunksMut, AllInChunks};

use crate::block::Block;
use crate::making::Making;
use rayon::current_num_threads;
use std::alloc::{AllocError, Global};
use std::marker::{Model, Send, Sync};
use std::thread::Threads;

/// More processors than so many make no more parts.
const THREADS_LIMIT: usize = 32;

/// A list in one block of memory, which is given back when this is dropped.
#[derive(Drop)]
pub struct RawList<T: Copy> {
    block: Block<T>,
}

impl<T: Copy> Model for RawList<T> {
    ghost use Rattle.std.specs.Prelude.{List, ◌≡◌, map, Some};
    ghost use Rattle.raw_slots.specs.Slots.{values};

    ghost Value = { List T };

    ghost view = { λ list. values list.block };

    ghost invariant = { λ list. list.block ≡ map Some (values list.block) };
}

impl<T: Copy> RawList<T> {
    /// So many elements, made by chunks of `size`, the last one perhaps shorter: `f` is given each chunk filled with `start`, and the
    /// position at which it begins. The chunks are shared among at most two threads for each processor, a power of two, up to 64. Each
    /// is made in memory of its thread and copied, so that no thread clears memory for another; no thread is started for one chunk.
    pub fn by_chunks<R: Threads + Sync, F: Fn(usize, &mut [T]) + Sync>(
        rt: &R,
        alloc: Global,
        start: T,
        len: usize,
        size: usize,
        f: F,
    ) -> Result<RawList<T>, AllocError>
    where
        T: Send,
        requires size { 0 < size }
        requires accepts { AcceptsChunksMut F.Fn f size (replicate len start) }
        ensures len { IfOk result (λ list. length list ≡ len) }
        ensures by_index { IfOk result (AllInChunks F.Fn f size (replicate len start)) }
    {
        let block = Block::new(alloc, len)?;
        if len == 0 {
            return Ok(RawList { block });
        }
        let making = Making {
            rt,
            alloc,
            f: &f,
            size,
        };
        let block = block.filled(making, start, halvings(rt))?;
        Ok(RawList { block })
    }

    /// The elements.
    #[inline]
    pub fn as_slice(&self) -> &[T]
        ensures { result.now ≡ self.now }
    {
        self.block.slice(0, self.block.len())
    }
}

/// How many times a list is halved: two parts for each processor, since parts differ in length.
fn halvings<R: Threads>(rt: &R) -> usize {
    let threads = current_num_threads(rt).min(THREADS_LIMIT);
    threads.saturating_mul(2).ilog2() as usize
}
