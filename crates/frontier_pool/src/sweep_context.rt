//! A sweep as its members see it, and what one of them does.
ghost use Rattle.std.specs.Prelude.{◌≡◌, ◌<◌, ◌≤◌};
ghost use Rattle.frontier_pool.specs.inside.Gains.{Gained};
ghost use Rattle.frontier_pool.specs.inside.Members.{IsReady, MayClaim, Worked};

use crate::gate::Gate;
use crate::job::Toil;
use crate::member::{Local, Member};
use crate::rule::{Claiming, Once, SeatView};
use atomic_table::{Seat, Shared};
use crossbeam_deque::{Steal, Stealer};

/// What is lent to all members.
#[derive(Drop)]
pub(crate) struct SweepContext<'a, T: Toil, G: Gate> {
    pub(crate) job: &'a T,
    pub(crate) gate: &'a G,
    /// One word an item.
    pub(crate) claimed: &'a Shared<(), SeatView, u32, Once>,
    /// Of each member, by its position.
    pub(crate) stealers: &'a Vec<Stealer<u32>>,
    pub(crate) items: u32,
    pub(crate) members: u32,
    pub(crate) ghost told: { claimed.now.key ≡ items },
    pub(crate) ghost width: { claimed.now.table_id.words ≡ items },
    pub(crate) ghost within: { items ≤ T.count job.now },
    pub(crate) ghost some: { 0 < members },
}

impl<T: Toil, G: Gate> SweepContext<'_, T, G> {
    /// All that the member at a position does.
    pub(crate) fn work(&self, worker: u32, member: &mut Member<T::Hand>)
        requires worker { worker < self.now.members }
        requires ready { IsReady self.now.claimed.now.table_id member.old }
        requires sound { T.sound self.now.job.now member.old.hand }
        ensures worked { Worked T.done self.now.claimed.now.table_id self.now.items member.old member.new }
        ensures sound { T.sound self.now.job.now member.new.hand }
    {
        if let Some(mut local) = member.leave() {
            self.serve(worker, &mut local, &mut member.hand);
            member.set_local(local);
        }
    }

    /// Pushes its batch, pops what it can, and goes once through the deques of the others.
    fn serve(&self, worker: u32, local: &mut Local, hand: &mut T::Hand)
        requires worker { worker < self.now.members }
        requires seat { MayClaim self.now.claimed.now.table_id local.old.seat }
        requires sound { T.sound self.now.job.now hand.old }
        ensures gained { Gained self.now.items local.old.seat local.new.seat (T.done hand.old) (T.done hand.new) }
        ensures sound { T.sound self.now.job.now hand.new }
    {
        let pushed = self.push_batch(worker, local, hand);
        self.pop_own(worker, pushed, local, hand);
        self.steal_all(worker, &mut local.seat, hand);
    }

    /// Pushes the member's batch into its own deque, and answers how many it took. What it hands back is done at once.
    fn push_batch(&self, worker: u32, local: &mut Local, hand: &mut T::Hand) -> u32
        requires worker { worker < self.now.members }
        requires seat { MayClaim self.now.claimed.now.table_id local.old.seat }
        requires sound { T.sound self.now.job.now hand.old }
        ensures gained { Gained self.now.items local.old.seat local.new.seat (T.done hand.old) (T.done hand.new) }
        ensures sound { T.sound self.now.job.now hand.new }
    {
        let mut pushed = 0;
        for number in self.batch_start(worker)..self.batch_start(worker + 1) {
            match local.own.push(number) {
                Ok(()) => pushed += 1,
                Err(back) => self.try_one(worker, back, &mut local.seat, hand),
            }
        }
        pushed
    }

    /// Where the batch of the member at a position begins.
    fn batch_start(&self, worker: u32) -> u32
        requires { worker ≤ self.now.members }
        ensures { result ≤ self.now.items }
    {
        (u64::from(self.items) * u64::from(worker) / u64::from(self.members)) as u32
    }

    /// Does what the member's own deque gives, so many times at most.
    fn pop_own(&self, worker: u32, most: u32, local: &mut Local, hand: &mut T::Hand)
        requires seat { MayClaim self.now.claimed.now.table_id local.old.seat }
        requires sound { T.sound self.now.job.now hand.old }
        ensures gained { Gained self.now.items local.old.seat local.new.seat (T.done hand.old) (T.done hand.new) }
        ensures sound { T.sound self.now.job.now hand.new }
    {
        for _pop in 0..most {
            match local.own.pop() {
                Some(number) => self.try_one(worker, number, &mut local.seat, hand),
                None => break,
            }
        }
    }

    /// Goes once through the deques of the others.
    fn steal_all(&self, worker: u32, seat: &mut Seat<(), SeatView>, hand: &mut T::Hand)
        requires seat { MayClaim self.now.claimed.now.table_id seat.old }
        requires sound { T.sound self.now.job.now hand.old }
        ensures gained { Gained self.now.items seat.old seat.new (T.done hand.old) (T.done hand.new) }
        ensures sound { T.sound self.now.job.now hand.new }
    {
        for (position, other) in self.stealers.iter().enumerate() {
            if position != worker as usize {
                self.steal_from(worker, other, seat, hand);
            }
        }
    }

    /// Steals from a deque until that fails, as often as there are items at most.
    fn steal_from(
        &self,
        worker: u32,
        other: &Stealer<u32>,
        seat: &mut Seat<(), SeatView>,
        hand: &mut T::Hand,
    )
        requires seat { MayClaim self.now.claimed.now.table_id seat.old }
        requires sound { T.sound self.now.job.now hand.old }
        ensures gained { Gained self.now.items seat.old seat.new (T.done hand.old) (T.done hand.new) }
        ensures sound { T.sound self.now.job.now hand.new }
    {
        for _steal in 0..self.items {
            match other.steal() {
                Steal::Success(number) => self.try_one(worker, number, seat, hand),
                _ => break,
            }
        }
    }

    /// Does a number's item after the gate (tested: `Gate`), if there is such an item and nobody has claimed it.
    fn try_one(&self, worker: u32, number: u32, seat: &mut Seat<(), SeatView>, hand: &mut T::Hand)
        requires seat { MayClaim self.now.claimed.now.table_id seat.old }
        requires sound { T.sound self.now.job.now hand.old }
        ensures gained { Gained self.now.items seat.old seat.new (T.done hand.old) (T.done hand.new) }
        ensures sound { T.sound self.now.job.now hand.new }
    {
        if number >= self.items {
            return;
        }
        let found = self.claimed.fetch_max::<Claiming>(seat, number as usize, 1);
        if found == 0 {
            self.gate.pass(worker, number);
            self.job.one(hand, number);
        }
    }
}
