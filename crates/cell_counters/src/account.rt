//! What a caller has done on a board, as contracts see it. No value of these types is made.
use std::collections::LinkedList;

/// No value was offered. It is greater than all that may be offered.
pub const NONE: u64 = u64::MAX;

/// A cut of a counter, and what was left after it.
pub struct Cut {
    pub counter: u32,
    pub left: u64,
}

/// A value offered to a minimum, and whether it was the first there.
pub struct Offer {
    pub word: u32,
    pub value: u64,
    pub first: bool,
}

/// A cell that was logged, and the number that was drawn for it.
pub struct Log {
    pub cell: u32,
    pub number: u64,
}

/// All that the holder of one hand has done, in order.
pub struct Account {
    pub cuts: LinkedList<Cut>,
    pub offers: LinkedList<Offer>,
    pub notes: LinkedList<u32>,
    pub logs: LinkedList<Log>,
}
