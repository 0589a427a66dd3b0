//! Gates that show by whom items are done, and that two workers are at work at once.

use frontier_pool::Gate;
use std::sync::atomic::{AtomicBool, AtomicU32, Ordering};
use std::thread;

/// Turns enough for another thread to come.
pub const MANY: u32 = 100_000_000;

/// Holds the items 0 and 1, each until the other has come, and those after them until item 0 has come, for so many
/// turns at most.
#[derive(Drop)]
pub struct Meeting {
    /// The worker that first came with the item and one, or 0.
    came: [AtomicU32; 2],
    alone: AtomicBool,
    turns: u32,
}

impl Meeting {
    pub fn of(turns: u32) -> Meeting {
        Meeting {
            came: [AtomicU32::new(0), AtomicU32::new(0)],
            alone: AtomicBool::new(false),
            turns,
        }
    }

    /// Which worker first came with the first item, and which with the second.
    pub fn workers(&self) -> [Option<u32>; 2] {
        [
            self.came[0].load(Ordering::SeqCst).checked_sub(1),
            self.came[1].load(Ordering::SeqCst).checked_sub(1),
        ]
    }

    /// Whether both items came, by two workers, before either was let go.
    pub fn met(&self) -> bool {
        let [first, second] = self.workers();
        first.is_some() && second.is_some() && first != second && !self.alone.load(Ordering::SeqCst)
    }

    /// Whether the other came in time.
    fn wait_for(&self, other: &AtomicU32) -> bool {
        for _turn in 0..self.turns {
            if other.load(Ordering::SeqCst) != 0 {
                return true;
            }
            thread::yield_now();
        }
        false
    }
}

impl Gate for Meeting {
    fn pass(&self, worker: u32, item: u32) {
        if item > 1 {
            self.wait_for(&self.came[0]);
            return;
        }
        let came = &self.came[item as usize];
        // A later round has such items too.
        if came.load(Ordering::SeqCst) == 0 {
            came.store(worker.wrapping_add(1), Ordering::SeqCst);
        }
        if !self.wait_for(&self.came[1 - item as usize]) {
            self.alone.store(true, Ordering::SeqCst);
        }
    }
}

/// Lets the first item pass, and then holds two as a `Meeting` does: those of round 1, where round 0 has one item.
#[derive(Drop)]
pub struct Later {
    pub begun: AtomicBool,
    pub meeting: Meeting,
}

impl Gate for Later {
    fn pass(&self, worker: u32, item: u32) {
        if self.begun.swap(true, Ordering::SeqCst) {
            self.meeting.pass(worker, item);
        }
    }
}
