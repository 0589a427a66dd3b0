//! A hand, and what it needs during a sweep.
ghost use Rattle.std.specs.Prelude.{◌≡◌, None, Some};
ghost use Rattle.frontier_pool.specs.Sweeps.{IsIdle};

use crate::rule::SeatView;
use atomic_table::Seat;
use crossbeam_deque::Worker;

/// What a member has during a sweep: the seat by which it claims, and its own deque. Sweeps alone make one.
#[derive(Drop)]
pub struct Local {
    pub(crate) seat: Seat<(), SeatView>,
    pub(crate) own: Worker<u32>,
}

/// A hand that takes part in sweeps.
#[derive(Drop)]
pub struct Member<H> {
    pub hand: H,
    /// None between sweeps.
    pub local: Option<Local>,
}

impl<H> Member<H> {
    /// Puts a hand in.
    pub fn new(hand: H) -> Member<H>
        ensures hand { result.hand ≡ hand }
        ensures idle { IsIdle result }
    {
        Member { hand, local: None }
    }

    /// Gives the hand back.
    pub fn into_hand(self) -> H
        ensures { result ≡ self.hand }
    {
        let Member { hand, local } = self;
        drop(local);
        hand
    }

    /// Sets what the member has during a sweep.
    pub(crate) fn set_local(&mut self, local: Local)
        ensures hand { self.new.hand ≡ self.old.hand }
        ensures local { self.new.local ≡ Some local }
    {
        self.local = Some(local);
    }

    /// Takes it out.
    pub(crate) fn leave(&mut self) -> Option<Local>
        ensures local { result ≡ self.old.local }
        ensures hand { self.new.hand ≡ self.old.hand }
        ensures idle { IsIdle self.new }
    {
        self.local.take()
    }
}
