//! What the caller of a sweep does before its members work, and after.
ghost use Rattle.std.specs.Prelude.{◌≡◌, ℕ, ◌<◌, [], ◌∷◌, length, All, IfOk};
ghost use Rattle.frontier_pool.specs.Sweeps.{IsIdle};
ghost use Rattle.frontier_pool.specs.inside.ClaimProtocol.{no_items, claims};
ghost use Rattle.frontier_pool.specs.inside.Gains.{Gained};
ghost use Rattle.frontier_pool.specs.inside.Members.{IsCaller, IsCallerOf, HasJoined, HasAddedWorkers, HasAll, IsReady, IsSeated, claim_lists_of, hands};

use crate::gate::Gate;
use crate::job::Toil;
use crate::member::{Local, Member};
use crate::rule::{FinalClaim, Once, SeatJoin, SeatSplit, SeatView};
use crate::sweep_context::SweepContext;
use atomic_table::{Seat, Shared, Table};
use crossbeam_deque::{Stealer, Worker};
use std::alloc::{AllocError, Global};

/// A table with a word for each item, all 0, and the caller's seat.
pub(crate) fn open(
    alloc: Global,
    items: u32,
) -> Result<(Table<(), SeatView, u32, Once, Global>, Seat<(), SeatView>), AllocError>
    ensures told { IfOk result (λ t. t.0.shared.key ≡ items) }
    ensures width { IfOk result (λ t. t.0.shared.table_id.words ≡ items) }
    ensures caller { IfOk result (λ t. IsCaller t.0.shared.table_id 1 (no_items ∷ []) t.1) }
{
    let zeros = vec![in alloc; 0u64; items as usize]?;
    Table::of_words(alloc, zeros.as_slice(), &items)
}

/// Gives each member a seat and a deque with capacity for its batch, and makes a stealer for each deque.
pub(crate) fn equip<H>(
    alloc: Global,
    claimed: &Shared<(), SeatView, u32, Once>,
    caller: &mut Seat<(), SeatView>,
    members: &mut [Member<H>],
    batch: usize,
) -> Result<Vec<Stealer<u32>>, AllocError>
    requires caller { IsCaller claimed.now.table_id 1 (no_items ∷ []) caller.old }
    requires some { 0 < claimed.now.table_id.words }
    ensures caller { IfOk result (λ s. IsCallerOf claimed.now.table_id (length members.old) caller.new) }
    ensures ready { IfOk result (λ s. All (IsReady claimed.now.table_id) members.new) }
    ensures hands { hands members.new ≡ hands members.old }
{
    let mut stealers = Vec::with_capacity(alloc, members.len())?;
    for member in members.iter_mut() {
        stealers.push(equip_member(alloc, claimed, caller, member, batch)?)?;
    }
    Ok(stealers)
}

/// Gives a member a seat and a deque with capacity for its batch, and makes a stealer for the deque.
fn equip_member<H>(
    alloc: Global,
    claimed: &Shared<(), SeatView, u32, Once>,
    caller: &mut Seat<(), SeatView>,
    member: &mut Member<H>,
    batch: usize,
) -> Result<Stealer<u32>, AllocError>
    requires worker { caller.old.table_id ≡ claimed.now.table_id }
    requires first { caller.old.id ≡ 0 }
    requires some { 0 < claimed.now.table_id.words }
    ensures split_off { IfOk result (λ s. HasAddedWorkers caller.old caller.new) }
    ensures ready { IfOk result (λ s. IsReady claimed.now.table_id member.new) }
    ensures hand { member.new.hand ≡ member.old.hand }
{
    let own = Worker::new_fifo(alloc, batch)?;
    let stealer = own.stealer()?;
    let seat = claimed.split_seat::<SeatSplit>(caller);
    member.set_local(Local { seat, own });
    Ok(stealer)
}

/// Takes back what each member had: its deque is dropped, and its seat joined with the caller's.
pub(crate) fn join_seats<H>(
    claimed: &Shared<(), SeatView, u32, Once>,
    caller: &mut Seat<(), SeatView>,
    members: &mut [Member<H>],
)
    requires caller { IsCaller claimed.now.table_id caller.old.me.0.made (no_items ∷ []) caller.old }
    requires some { 0 < claimed.now.table_id.words }
    requires seated { All (IsSeated claimed.now.table_id) members.old }
    ensures caller { HasJoined claimed.now.table_id (claim_lists_of members.old) caller.old caller.new }
    ensures hands { hands members.new ≡ hands members.old }
    ensures idle { All IsIdle members.new }
{
    for member in members.iter_mut() {
        if let Some(Local { seat, own }) = member.leave() {
            drop(own);
            claimed.join_seat::<SeatJoin>(caller, seat);
        }
    }
}

/// Takes out what each member had.
pub(crate) fn forget_locals<H>(members: &mut [Member<H>])
    ensures hands { hands members.new ≡ hands members.old }
    ensures idle { All IsIdle members.new }
{
    for member in members.iter_mut() {
        drop(member.leave());
    }
}

impl<T: Toil, G: Gate> SweepContext<'_, T, G> {
    /// The caller claims every item, once all seats are joined, and does what nobody has done.
    pub(crate) fn finish(&self, caller: &mut Seat<(), SeatView>, hand: &mut T::Hand)
        requires caller { HasAll self.now.claimed.now.table_id caller.old }
        requires sound { T.sound self.now.job.now hand.old }
        ensures gained { Gained self.now.items caller.old caller.new (T.done hand.old) (T.done hand.new) }
        ensures once { (n : ℕ) → n < self.now.items → claims n caller.new.me.0 ≡ 1 }
        ensures sound { T.sound self.now.job.now hand.new }
    {
        for item in 0..self.items {
            self.finish_one(item, caller, hand);
        }
    }

    fn finish_one(&self, item: u32, caller: &mut Seat<(), SeatView>, hand: &mut T::Hand)
        requires item { item < self.now.items }
        requires caller { HasAll self.now.claimed.now.table_id caller.old }
        requires sound { T.sound self.now.job.now hand.old }
        ensures gained { Gained self.now.items caller.old caller.new (T.done hand.old) (T.done hand.new) }
        ensures once { claims item caller.new.me.0 ≡ 1 }
        ensures others { (n : ℕ) → n < item → claims n caller.new.me.0 ≡ claims n caller.old.me.0 }
        ensures sound { T.sound self.now.job.now hand.new }
    {
        let found = self
            .claimed
            .fetch_max::<FinalClaim>(caller, item as usize, 1);
        if found == 0 {
            self.gate.pass(0, item);
            self.job.one(hand, item);
        }
    }
}
