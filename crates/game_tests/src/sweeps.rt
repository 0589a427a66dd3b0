//! Sweeps over hands of any number.

use crate::meeting::{MANY, Meeting};
use frontier_pool::{Gate, Member, Open, Toil, one_by_one, sweep};
use std::alloc::{AllocError, Global};
use std::process::Abort;
use std::sync::atomic::{AtomicBool, Ordering};
use std::test::Fail;
use std::thread::Threads;

/// Each hand writes down what it does.
#[derive(Drop)]
struct Writing<'a, R> {
    rt: &'a R,
    items: u32,
    gate: &'a Meeting,
    /// An item was done that hadn't come to the gate.
    early: AtomicBool,
}

impl<R: Abort + Sync> Toil for Writing<'_, R> {
    type Hand = Vec<u32>;

    ghost done = { λ hand. hand.items };

    ghost sound = { λ toil hand. Unit {0} };

    ghost count = { λ toil. toil.items };

    fn items(&self) -> u32 {
        self.items
    }

    fn one(&self, hand: &mut Vec<u32>, item: u32) {
        if let Some(None) = self.gate.workers().get(item as usize) {
            self.early.store(true, Ordering::SeqCst);
        }
        hand.push(item).expect(self.rt, "memory");
    }
}

impl<'a, R> Writing<'a, R> {
    fn new(rt: &'a R, items: u32, gate: &'a Meeting) -> Writing<'a, R> {
        Writing {
            rt,
            items,
            gate,
            early: AtomicBool::new(false),
        }
    }
}

fn members_of(alloc: Global, count: usize) -> Result<Vec<Member<Vec<u32>>>, AllocError> {
    let mut members = Vec::with_capacity(alloc, count)?;
    for _member in 0..count {
        members.push(Member::new(Vec::new(alloc)))?;
    }
    Ok(members)
}

/// What each hand did in a sweep.
fn swept<R: Abort + Threads + Sync, G: Gate>(
    rt: &R,
    alloc: Global,
    toil: &Writing<'_, R>,
    count: usize,
    gate: &G,
) -> Result<Vec<Vec<u32>>, Fail> {
    let mut members = members_of(alloc, count)?;
    if members.is_empty() || members.len() > 64 {
        return Err("no such number of hands".into());
    }
    sweep(rt, alloc, toil, members.as_mut_slice(), toil.items, gate);
    let mut hands = Vec::new(alloc);
    for member in members {
        hands.push(member.into_hand())?;
    }
    Ok(hands)
}

/// Whether all hands together did each item once.
fn is_each_done_once<R: Abort + Threads + Sync>(
    rt: &R,
    alloc: Global,
    items: u32,
    count: usize,
) -> Result<bool, Fail> {
    let gate = Meeting::of(0);
    let mut done = Vec::new(alloc);
    for hand in swept(rt, alloc, &Writing::new(rt, items, &gate), count, &Open)? {
        done.extend_from_slice(hand.as_slice())?;
    }
    done.sort_unstable();
    Ok(done.iter().copied().eq(0..items))
}

#[test]
fn every_item_is_done_once(rt: HostRuntime) -> Result<(), Fail> {
    let mut good = true;
    for count in [1, 2, 64] {
        for items in [0, 1, 2, 63, 64, 1000] {
            good = good && is_each_done_once(&rt, rt.alloc(), items, count)?;
        }
    }
    assert!(rt; good);
    Ok(())
}

/// Whether an item was done after it had come to the gate, by the hand with the number that the gate was given.
fn is_with(hands: &[Vec<u32>], item: u32, worker: Option<u32>) -> bool {
    match worker {
        Some(place) => match hands.get(place as usize) {
            Some(hand) => hand.contains(&item),
            None => false,
        },
        None => false,
    }
}

/// Two hands sweep so many items, of which the first two meet.
fn do_two_meet<R: Abort + Threads + Sync>(rt: &R, alloc: Global, items: u32) -> Result<bool, Fail> {
    let gate = Meeting::of(MANY);
    let toil = Writing::new(rt, items, &gate);
    let hands = swept(rt, alloc, &toil, 2, &gate)?;
    let [first, second] = gate.workers();
    Ok(
        gate.met()
            && !toil.early.load(Ordering::SeqCst)
            && is_with(hands.as_slice(), 0, first)
            && is_with(hands.as_slice(), 1, second),
    )
}

#[test]
fn two_items_meet_at_the_gate_with_their_hands(rt: HostRuntime) -> Result<(), Fail> {
    assert!(rt; do_two_meet(&rt, rt.alloc(), 2)?);
    Ok(())
}

/// Items 0 and 1 are one hand's share: while it is held at the first, the other hand steals the second.
#[test]
fn item_after_a_held_one_is_stolen(rt: HostRuntime) -> Result<(), Fail> {
    assert!(rt; do_two_meet(&rt, rt.alloc(), 4)?);
    Ok(())
}

/// One hand does the items in their order: the second comes to the gate only after the first was let go.
#[test]
fn one_hand_meets_nobody(rt: HostRuntime) -> Result<(), Fail> {
    let gate = Meeting::of(10);
    let toil = Writing::new(&rt, 3, &gate);
    let mut hand = Vec::new(rt.alloc());
    one_by_one(&toil, &mut hand, toil.items, &gate);
    assert!(rt;
        hand.as_slice() == [0, 1, 2].as_slice()
            && gate.workers() == [Some(0), Some(0)]
            && !gate.met()
            && !toil.early.load(Ordering::SeqCst)
    );
    Ok(())
}
