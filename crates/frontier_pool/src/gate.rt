//! What stands before each item.

/// A gate that a worker passes before each item, for tests that hold workers up. That each item has its pass, before it and
/// with its worker's number, is tested; no clause of any crate says so.
pub trait Gate: Sync {
    /// A worker is about to do an item. Its number is its member's position.
    fn pass(&self, worker: u32, item: u32);
}

/// The gate that holds nobody up.
#[derive(Clone, Copy)]
pub struct Open;

impl Gate for Open {
    fn pass(&self, _worker: u32, _item: u32) {}
}
