//! A sweep, and how many hands a round is worth.
ghost use Rattle.std.specs.Prelude.{◌≡◌, ◌/◌, ◌<◌, ◌≤◌, length, min, max, All, OnOk, OnErr};
ghost use Rattle.frontier_pool.specs.Sweeps.{HaveSwept, IsIdle};
ghost use Rattle.frontier_pool.specs.inside.Members.{IsCallerOf, IsReady, Worked, HaveWorked, hands};
ghost use Rattle.frontier_pool.specs.declared.pool.TheConstants.{STEPS_PER_HAND};
ghost use Rattle.base.specs.declared.limits.TheConstants.{WORKERS_LIMIT};

use crate::caller::{equip, forget_locals, join_seats, open};
use crate::gate::Gate;
use crate::job::Toil;
use crate::member::Member;
use crate::rule::SeatView;
use crate::serial::one_by_one;
use crate::sweep_context::SweepContext;
use atomic_table::Seat;
use std::alloc::{AllocError, Global};
use std::thread;
use std::thread::Threads;

/// Fewer steps a hand aren't worth a thread.
pub const STEPS_PER_HAND: u64 = 10_000;

/// How many hands a round is worth whose items take about so many short steps in all: in round 0 as many as there are
/// items, and later one for each 10,000 steps, but no more than there are items.
///
/// A further hand takes some 20 microseconds, and each item of a shared round a fraction of one. Most rounds are short and
/// come by the thousand, so threads in each would take longer than all steps. Round 0 comes once.
pub fn hands_for(round: u32, items: u32, steps: u64, workers: u32) -> u32
    ensures first { round ≡ 0 → result ≡ max 1 (min workers items) }
    ensures later { 0 < round → result ≡ max 1 (min workers (min items (steps / STEPS_PER_HAND))) }
{
    let worth = if round == 0 {
        items
    } else {
        u64::from(items).min(steps / STEPS_PER_HAND) as u32
    };
    workers.min(worth).max(1)
}

/// Does each item below a number with exactly one of the members' hands, once, after the gate (tested: `Gate`).
///
/// The members work in threads of their own, where these can be made. A worker's number is its member's position. A sweep
/// takes 8 bytes an item, for a moment as much again, and 32 to 64 bytes an item for the deques. Where there is no memory
/// for these, the first hand does all items, and so there is no refusal.
pub fn sweep<R: Threads + Sync, T: Toil, G: Gate>(
    rt: &R,
    alloc: Global,
    job: &T,
    members: &mut [Member<T::Hand>],
    items: u32,
    gate: &G,
)
    requires members { (0 < length members.old) × (length members.old ≤ WORKERS_LIMIT) }
    requires sound { All (λ m. T.sound job.now m.hand) members.old }
    requires items { items ≤ T.count job.now }
    ensures swept { HaveSwept T.done members.old members.new items }
    ensures sound { All (λ m. T.sound job.now m.hand) members.new }
    ensures idle { All IsIdle members.old → All IsIdle members.new }
{
    if items == 0 {
        return;
    }
    if run_in_batches(rt, alloc, job, members, items, gate).is_err() {
        forget_locals(members);
        do_all(job, members, items, gate);
    }
}

/// The first hand does all items.
fn do_all<T: Toil, G: Gate>(job: &T, members: &mut [Member<T::Hand>], items: u32, gate: &G)
    requires some { 0 < length members.old }
    requires sound { All (λ m. T.sound job.now m.hand) members.old }
    requires items { items ≤ T.count job.now }
    requires idle { All IsIdle members.old }
    ensures swept { HaveSwept T.done members.old members.new items }
    ensures sound { All (λ m. T.sound job.now m.hand) members.new }
    ensures idle { All IsIdle members.new }
{
    let first = &mut members[0];
    one_by_one(job, &mut first.hand, items, gate);
}

/// The members do the items beside one another. Where there is no memory for that, nothing is done.
fn run_in_batches<R: Threads + Sync, T: Toil, G: Gate>(
    rt: &R,
    alloc: Global,
    job: &T,
    members: &mut [Member<T::Hand>],
    items: u32,
    gate: &G,
) -> Result<(), AllocError>
    requires members { (0 < length members.old) × (length members.old ≤ WORKERS_LIMIT) }
    requires some { 0 < items }
    requires sound { All (λ m. T.sound job.now m.hand) members.old }
    requires items { items ≤ T.count job.now }
    ensures swept { OnOk result (HaveSwept T.done members.old members.new items) }
    ensures sound { OnOk result (All (λ m. T.sound job.now m.hand) members.new) }
    ensures idle { OnOk result (All IsIdle members.new) }
    ensures same { OnErr result (hands members.new ≡ hands members.old) }
{
    let (table, mut caller) = open(alloc, items)?;
    let count = members.len();
    let batch = (items as usize).div_ceil(count);
    let stealers = equip(alloc, &table.shared, &mut caller, members, batch)?;
    let sweep_context = SweepContext {
        job,
        gate,
        claimed: &table.shared,
        stealers: &stealers,
        items,
        members: count as u32,
    };
    hold_sweep_context(rt, &sweep_context, &mut caller, members);
    Ok(())
}

/// The members do what they find, and the caller takes back what they had and does the rest.
fn hold_sweep_context<R: Threads + Sync, T: Toil, G: Gate>(
    rt: &R,
    sweep_context: &SweepContext<'_, T, G>,
    caller: &mut Seat<(), SeatView>,
    members: &mut [Member<T::Hand>],
)
    requires count { (length members.old ≡ sweep_context.now.members) × (length members.old ≤ WORKERS_LIMIT) }
    requires some { 0 < sweep_context.now.items }
    requires caller { IsCallerOf sweep_context.now.claimed.now.table_id (length members.old) caller.old }
    requires ready { All (IsReady sweep_context.now.claimed.now.table_id) members.old }
    requires sound { All (λ m. T.sound sweep_context.now.job.now m.hand) members.old }
    ensures swept { HaveSwept T.done members.old members.new sweep_context.now.items }
    ensures sound { All (λ m. T.sound sweep_context.now.job.now m.hand) members.new }
    ensures idle { All IsIdle members.new }
{
    work_all(rt, sweep_context, members);
    join_seats(sweep_context.claimed, caller, members);
    let first = &mut members[0];
    sweep_context.finish(caller, &mut first.hand);
}

/// All members work, each in a thread where one can be made.
fn work_all<R: Threads + Sync, T: Toil, G: Gate>(
    rt: &R,
    sweep_context: &SweepContext<'_, T, G>,
    members: &mut [Member<T::Hand>],
)
    requires count { (length members.old ≡ sweep_context.now.members) × (length members.old ≤ WORKERS_LIMIT) }
    requires ready { All (IsReady sweep_context.now.claimed.now.table_id) members.old }
    requires sound { All (λ m. T.sound sweep_context.now.job.now m.hand) members.old }
    ensures worked { HaveWorked T.done sweep_context.now.claimed.now.table_id sweep_context.now.items members.old members.new }
    ensures sound { All (λ m. T.sound sweep_context.now.job.now m.hand) members.new }
{
    let count = members.len();
    thread::for_each_mut(
        rt,
        members,
        count,
        &|worker: usize, member: &mut Member<T::Hand>|
            requires worker { worker < sweep_context.now.members }
            requires few { worker < WORKERS_LIMIT }
            requires ready { IsReady sweep_context.now.claimed.now.table_id member.now }
            requires sound { T.sound sweep_context.now.job.now member.now.hand }
            ensures worked { Worked T.done sweep_context.entry.now.claimed.now.table_id sweep_context.entry.now.items member.entry.now member.exit.now }
            ensures sound { T.sound sweep_context.entry.now.job.now member.exit.now.hand }
        { sweep_context.work(worker as u32, member) },
    );
}
