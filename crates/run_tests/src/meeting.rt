//! A gate that shows that two workers are at work at once.

use std::sync::atomic::{AtomicBool, Ordering};
use std::thread;
use synth_run::Gate;

/// Turns enough for another thread to come.
pub const MANY: u32 = 100_000_000;

/// Holds the first two items of a round, each until the other has come, and those after them until the first has come, for
/// so many turns at most: a worker that came earlier would find nothing to steal, and go.
#[derive(Drop)]
pub struct Rendezvous {
    came: [AtomicBool; 2],
    alone: AtomicBool,
    turns: u32,
}

impl Rendezvous {
    pub fn of(turns: u32) -> Rendezvous {
        Rendezvous {
            came: [AtomicBool::new(false), AtomicBool::new(false)],
            alone: AtomicBool::new(false),
            turns,
        }
    }

    /// Whether both items came before either was let go.
    pub fn met(&self) -> bool {
        self.came[0].load(Ordering::SeqCst)
            && self.came[1].load(Ordering::SeqCst)
            && !self.alone.load(Ordering::SeqCst)
    }

    /// Whether the other came in time.
    fn wait_for(&self, other: &AtomicBool) -> bool {
        for _turn in 0..self.turns {
            if other.load(Ordering::SeqCst) {
                return true;
            }
            thread::yield_now();
        }
        false
    }
}

impl Gate for Rendezvous {
    fn pass(&self, _worker: u32, item: u32) {
        if item > 1 {
            self.wait_for(&self.came[0]);
            return;
        }
        self.came[item as usize].store(true, Ordering::SeqCst);
        if !self.wait_for(&self.came[1 - item as usize]) {
            self.alone.store(true, Ordering::SeqCst);
        }
    }
}
