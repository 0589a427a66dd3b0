//! `Making`: how the chunks of a list are made.
use std::alloc::Global;

/// How a list is made: by `f`, a chunk of `size` at a time, each in memory of its own.
#[derive_where(Clone, Copy)]
pub(crate) struct Making<'a, R, F> {
    pub(crate) rt: &'a R,
    pub(crate) alloc: Global,
    pub(crate) f: &'a F,
    pub(crate) size: usize,
}
