//! Boards of counters, minima and a log.

ghost use Rattle.std.specs.Prelude.{◌≡◌, ◌<◌, length};

use cell_counters::{Board, NONE, Root};
use std::test::Fail;
use std::thread;
use std::thread::{Threads, join_mut};

/// 3 cuts leave 2, 1 and 0; the least of 9 and 4 is 4, and 7 doesn't lower a word at 5; two of three logs have a slot.
#[test]
fn one_hand_does_each_step(rt: HostRuntime) -> Result<(), Fail> {
    let (board, mut root) = Board::with_log(rt.alloc(), &[3], &[NONE, 5], 2)?;
    let mut hand = board.hand(&mut root);
    let left = [
        board.cut(&mut hand, 0),
        board.cut(&mut hand, 0),
        board.cut(&mut hand, 0),
    ];
    let first = [
        board.offer(&mut hand, 0, 9),
        board.offer(&mut hand, 0, 4),
        board.offer(&mut hand, 1, 7),
    ];
    let kept = [
        board.log(&mut hand, 10),
        board.log(&mut hand, 11),
        board.log(&mut hand, 12),
    ];
    board.note(&mut hand, 12);
    board.take_in(&mut root, hand);
    let words = [board.read(&mut root, 0), board.read(&mut root, 1)];
    let logged = [board.logged(&mut root, 0), board.logged(&mut root, 1)];
    assert!(rt;
        left == [2, 1, 0]
            && first == [true, false, false]
            && kept == [true, true, false]
            && words == [4, 5]
            && board.left(&mut root, 0) == 0
            && board.log_len(&mut root) == 2
            && logged == [10, 11]
            && root.out() == 0
    );
    Ok(())
}

/// 4 cuts of 4 leave 3 to 0, of 4 offers on a free word one was first, and 3 logs have a slot.
fn are_lawful(steps: &[(u64, bool, bool)]) -> bool {
    let mut left = [0; 4];
    let mut firsts: u32 = 0;
    let mut kept: u32 = 0;
    for (place, step) in left.iter_mut().zip(steps) {
        *place = step.0;
        firsts = firsts.wrapping_add(u32::from(step.1));
        kept = kept.wrapping_add(u32::from(step.2));
    }
    left.sort_unstable();
    steps.len() == 4 && left == [0, 1, 2, 3] && firsts == 1 && kept == 3
}

#[test]
fn four_hands_in_threads_of_their_own(rt: HostRuntime) -> Result<(), Fail> {
    let (board, mut root) = Board::with_log(rt.alloc(), &[4], &[NONE], 3)?;
    let hands = vec![in rt.alloc();
        board.hand(&mut root),
        board.hand(&mut root),
        board.hand(&mut root),
        board.hand(&mut root),
    ]?;
    let steps = thread::map_vec(
        &rt,
        hands,
        &|hand| {
            let mut hand = hand;
            let left = board.cut(&mut hand, 0);
            let first = board.offer(&mut hand, 0, 7);
            (left, first, board.log(&mut hand, 5))
        },
    )?;
    assert!(rt; are_lawful(steps.as_slice()));
    Ok(())
}

/// What two hands did: their cuts of counter 0, and whether their offers on the words 0 and 1 were first.
#[derive(Drop)]
struct Done {
    left: [u64; 3],
    first: [bool; 3],
}

impl Done {
    /// The cuts leave 2, 1 and 0, each once; one offer on word 0 is first, and none on word 1.
    fn is_lawful(&self) -> bool {
        let [one, other, third] = self.left;
        let first = one.min(other).min(third);
        let last = one.max(other).max(third);
        let [on_word, also_on_word, on_other_word] = self.first;
        first == 0
            && last == 2
            && one != other
            && other != third
            && one != third
            && on_word != also_on_word
            && !on_other_word
    }
}

/// Two hands in threads of their own cut counter 0 three times in all, offer 9 and 4 on word 0, and one offers 7 on word 1.
fn done_by_two_hands<R: Threads + Sync>(rt: &R, board: &Board, root: &mut Root) -> Done
    requires root { root.old.board ≡ board.now }
    requires room { root.old.out ≡ 0 }
    requires counter { 0 < length board.now.starts }
    requires words { 1 < length board.now.least }
    ensures root { root.new.board ≡ board.now }
    ensures settled { root.new.out ≡ 0 }
{
    let mut hand = board.hand(root);
    let mut other = board.hand(root);
    let (mine, its) = join_mut(
        rt,
        &mut || {
            let left = [board.cut(&mut hand, 0), board.cut(&mut hand, 0)];
            let first = [board.offer(&mut hand, 0, 9), board.offer(&mut hand, 1, 7)];
            (left, first)
        },
        &mut || (board.cut(&mut other, 0), board.offer(&mut other, 0, 4)),
    );
    board.take_in(root, hand);
    board.take_in(root, other);
    let ([one, next], [on_word, on_other_word]) = mine;
    let (last, also_on_word) = its;
    Done {
        left: [one, next, last],
        first: [on_word, also_on_word, on_other_word],
    }
}

/// Whether a fresh board has the steps of two hands as they are to be.
fn has_the_steps<R: Threads + Sync>(rt: &R, board: &Board, root: &mut Root) -> bool
    requires root { root.old.board ≡ board.now }
    requires room { root.old.out ≡ 0 }
    requires counter { 0 < length board.now.starts }
    requires words { 1 < length board.now.least }
{
    let done = done_by_two_hands(rt, board, root);
    done.is_lawful()
        && board.read(root, 0) == 4
        && board.read(root, 1) == 5
        && board.left(root, 0) == 0
}

#[test]
fn two_hands_in_threads_of_their_own(rt: HostRuntime) -> Result<(), Fail> {
    let (board, mut root) = Board::new(rt.alloc(), &[3], &[NONE, 5])?;
    assert!(rt; has_the_steps(&rt, &board, &mut root));
    Ok(())
}

#[test]
fn two_hands_on_a_board_with_a_log(rt: HostRuntime) -> Result<(), Fail> {
    let (board, mut root) = Board::with_log(rt.alloc(), &[3], &[NONE, 5], 1)?;
    assert!(rt; has_the_steps(&rt, &board, &mut root));
    Ok(())
}
