//! A board, the root of its owner, and the hands of its callers.
ghost use Rattle.std.specs.Prelude.{◌≡◌, ◌≢◌, ◌+◌, ◌^◌, ◌<◌, ◌≤◌, ◌==◌, false, ◌++◌, length, take, drop, replicate, slice_index, IfOk, Any, vec_len};
ghost use Rattle.cell_counters.specs.Accounts.{IsLawfulCounter, IsLawfulLeast, IsLawfulLog, log_count, all_logs, cell_at};
ghost use Rattle.cell_counters.specs.BoardModels.{fresh_hand, with_cut, with_offer, with_note, new_root, with_hand_out, with_hand_in, IsLawful, Logs, filled_slots};
ghost use Rattle.cell_counters.specs.Words.{EndsInZeros, numbers_before_log};
ghost use Rattle.base.specs.declared.limits.TheConstants.{WORKERS_LIMIT};

use crate::account::NONE;
use crate::numbers::Numbers;
use crate::rule::{
    Beginning, Cutting, Drawing, HandJoin, HandSplit, Item, Lawful, Looking, Noting, Offering,
    Storing, View,
};
use atomic_table::{Seat, Table};
use base::NoMemory;
use std::alloc::{AllocError, Global};
use std::marker::{Brand, Model};

/// Counters, minima and a log that threads share by reference.
///
/// To a contract it is which board it is, the numbers with which it began, and how many slots its log has.
#[derive(Drop)]
pub struct Board {
    table: Table<(), View, Beginning, Lawful, Global>,
    counters: usize,
    /// The word that counts the logs. The slots of the log follow it.
    tail: usize,
    slots: u32,
}

impl Model for Board {
    ghost use Rattle.cell_counters.specs.BoardModels.{BoardModel};
    ghost use Rattle.cell_counters.specs.inside.BoardProtocol.{board_model, IsSized};

    ghost Value = { BoardModel };

    ghost view = { λ b. board_model b.table.shared.table_id b.table.shared.key };

    ghost invariant = { λ b. IsSized b.table.shared.key b.counters b.tail b.slots b.table.shared.table_id.words };
}

/// The owner's token.
///
/// To a contract it is its board, how many hands are out, and the accounts of those that were taken in.
#[derive(Drop)]
pub struct Root {
    seat: Seat<(), View>,
    out: u32,
}

impl Model for Root {
    ghost use Rattle.cell_counters.specs.BoardModels.{RootModel};
    ghost use Rattle.cell_counters.specs.inside.BoardProtocol.{root_model, IsRoot};

    ghost Value = { RootModel };

    ghost view = { λ r. root_model r.seat.table_id r.seat.me.0 r.out };

    ghost invariant = { λ r. IsRoot r.seat.id r.seat.me r.out };
}

/// The token of one caller, which may go to another thread. It has no bytes.
///
/// To a contract it is its board and its account.
#[derive(Drop)]
pub struct Hand {
    seat: Seat<(), View>,
}

impl Model for Hand {
    ghost use Rattle.cell_counters.specs.BoardModels.{HandModel};
    ghost use Rattle.cell_counters.specs.inside.BoardProtocol.{hand_model, IsHand};

    ghost Value = { HandModel };

    ghost view = { λ h. hand_model h.seat.table_id h.seat.me.0 };

    ghost invariant = { λ h. IsHand h.seat.me };
}

impl Root {
    /// How many hands were made and not taken in.
    pub fn out(&self) -> u32
        ensures { result ≡ self.now.out }
    {
        self.out
    }
}

impl Board {
    /// A board whose counters begin as `starts` and whose minima begin as `least`. Its log has no slots.
    pub fn new(alloc: Global, starts: &[u64], least: &[u64]) -> Result<(Board, Root), NoMemory>
        requires some { 0 < length starts.now + length least.now }
        requires fits { length starts.now + length least.now < 2 ^ 32 }
        ensures starts { IfOk result (λ made. made.0.starts ≡ starts.now) }
        ensures least { IfOk result (λ made. made.0.least ≡ least.now) }
        ensures slots { IfOk result (λ made. made.0.slots ≡ 0) }
        ensures root { IfOk result (λ made. made.1 ≡ new_root made.0) }
    {
        Board::with_log(alloc, starts, least, 0)
    }

    /// The same with a log of so many slots.
    pub fn with_log(
        alloc: Global,
        starts: &[u64],
        least: &[u64],
        slots: u32,
    ) -> Result<(Board, Root), NoMemory>
        requires some { 0 < length starts.now + length least.now + slots }
        requires fits { length starts.now + length least.now + slots < 2 ^ 32 }
        ensures starts { IfOk result (λ made. made.0.starts ≡ starts.now) }
        ensures least { IfOk result (λ made. made.0.least ≡ least.now) }
        ensures slots { IfOk result (λ made. made.0.slots ≡ slots) }
        ensures root { IfOk result (λ made. made.1 ≡ new_root made.0) }
    {
        let mut words = starts.to_vec(alloc)?;
        words.extend_from_slice(least)?;
        let words = with_zeros(words, 1 + slots as usize)?;
        let words = words.as_slice();
        Board::of_words(alloc, words, starts.len() as u32, slots)
    }

    /// The same of all words in one list: the numbers of the counters, the minima, and zeros for the length of the log and
    /// its slots. It takes 8 bytes for each word, and copies them.
    pub fn of_words(
        alloc: Global,
        words: &[u64],
        counters: u32,
        slots: u32,
    ) -> Result<(Board, Root), NoMemory>
        requires log { EndsInZeros words.now (1 + slots) }
        requires some { 0 < length (numbers_before_log words.now slots) + slots }
        requires fits { length (numbers_before_log words.now slots) + slots < 2 ^ 32 }
        requires counters { counters ≤ length (numbers_before_log words.now slots) }
        ensures starts { IfOk result (λ made. made.0.starts ≡ take counters (numbers_before_log words.now slots)) }
        ensures least { IfOk result (λ made. made.0.least ≡ drop counters (numbers_before_log words.now slots)) }
        ensures slots { IfOk result (λ made. made.0.slots ≡ slots) }
        ensures root { IfOk result (λ made. made.1 ≡ new_root made.0) }
    {
        let counters = counters as usize;
        let tail = words.len() - (1 + slots as usize);
        let beginning = Beginning {
            words: Numbers::of(&words[..tail]),
            counters,
            slots,
        };
        let (table, seat) = Table::of_words(alloc, words, &beginning)?;
        let board = Board {
            table,
            counters,
            tail,
            slots,
        };
        Ok((board, Root { seat, out: 0 }))
    }

    /// A new hand.
    pub fn hand(&self, root: &mut Root) -> Hand
        requires root { root.old.board ≡ self.now }
        requires few { root.old.out < WORKERS_LIMIT }
        ensures hand { result ≡ fresh_hand self.now }
        ensures root { root.new ≡ with_hand_out root.old }
    {
        let shared = &self.table.shared;
        let seat = shared.split_seat::<HandSplit>(&mut root.seat);
        root.out += 1;
        Hand { seat }
    }

    /// Takes a hand back. Once all are back, the accounts show all that was done on the board.
    pub fn take_in(&self, root: &mut Root, hand: Hand)
        requires root { root.old.board ≡ self.now }
        requires hand { hand.board ≡ self.now }
        ensures was_out { 0 < root.old.out }
        ensures root { root.new ≡ with_hand_in root.old hand.account }
        ensures lawful { root.new.out ≡ 0 → IsLawful root.new.accounts self.now.starts self.now.least }
    {
        let Hand { seat } = hand;
        let shared = &self.table.shared;
        shared.join_seat::<HandJoin>(&mut root.seat, seat);
        shared.load::<Looking>(&mut root.seat, 0);
        root.out -= 1;
    }

    /// Takes one from a counter, modulo 2^64, and answers what is then left.
    pub fn cut(&self, hand: &mut Hand, counter: u32) -> u64
        requires hand { hand.old.board ≡ self.now }
        requires counter { counter < length self.now.starts }
        ensures { hand.new ≡ record hand.old { account = with_cut hand.old.account counter result } }
    {
        let shared = &self.table.shared;
        let found = shared.fetch_sub::<Cutting>(&mut hand.seat, counter as usize, 1);
        found.wrapping_sub(1)
    }

    /// Lowers a minimum to `value`, unless it is lower, and answers whether it was free.
    pub fn offer(&self, hand: &mut Hand, word: u32, value: u64) -> bool
        requires hand { hand.old.board ≡ self.now }
        requires word { word < length self.now.least }
        requires value { value < NONE }
        ensures account { hand.new ≡ record hand.old { account = with_offer hand.old.account word value result } }
        ensures earlier { Any (λ o. o.word ≡ word) hand.old.account.offers → result ≡ false }
        ensures taken { slice_index self.now.least word ≢ NONE → result ≡ false }
    {
        let shared = &self.table.shared;
        let at = self.counters + word as usize;
        let found = shared.fetch_min::<Offering>(&mut hand.seat, at, value);
        found == NONE
    }

    /// Notes an item. It costs one load.
    pub fn note(&self, hand: &mut Hand, item: u32)
        requires { hand.old.board ≡ self.now }
        ensures { hand.new ≡ record hand.old { account = with_note hand.old.account item } }
    {
        self.note_as::<Brand>(hand, item);
    }

    fn note_as<I: Item>(&self, hand: &mut Hand, item: u32)
        requires hand { hand.old.board ≡ self.now }
        requires item { item ≡ I.item }
        ensures { hand.new ≡ record hand.old { account = with_note hand.old.account item } }
    {
        // Contracts alone see the item.
        let _ = item;
        let shared = &self.table.shared;
        shared.load::<Noting<I>>(&mut hand.seat, 0);
    }

    /// Draws the next number of the log, stores the cell at that slot where the log has it, and answers whether it has.
    pub fn log(&self, hand: &mut Hand, cell: u32) -> bool
        requires { hand.old.board ≡ self.now }
        ensures { Logs hand.old hand.new cell result }
    {
        self.log_as::<Brand>(hand, cell)
    }

    fn log_as<I: Item>(&self, hand: &mut Hand, cell: u32) -> bool
        requires hand { hand.old.board ≡ self.now }
        requires item { cell ≡ I.item }
        ensures { Logs hand.old hand.new cell result }
    {
        let shared = &self.table.shared;
        let number = shared.fetch_add::<Drawing<I>>(&mut hand.seat, self.tail, 1);
        if number >= u64::from(self.slots) {
            return false;
        }
        let at = self.tail + 1 + number as usize;
        shared.store::<Storing>(&mut hand.seat, at, u64::from(cell));
        true
    }

    /// How many slots of the log are filled, once all hands are back.
    pub fn log_len(&self, root: &mut Root) -> u32
        requires root { root.old.board ≡ self.now }
        requires settled { root.old.out ≡ 0 }
        ensures lawful { log_count root.old.accounts < 2 ^ 64 → IsLawfulLog root.old.accounts }
        ensures filled { log_count root.old.accounts < 2 ^ 64 → result ≡ filled_slots root.old.accounts self.now.slots }
        ensures within { result ≤ filled_slots root.old.accounts self.now.slots }
        ensures same { root.new ≡ root.old }
    {
        let shared = &self.table.shared;
        let logs = shared.load::<Looking>(&mut root.seat, self.tail);
        if logs < u64::from(self.slots) {
            logs as u32
        } else {
            self.slots
        }
    }

    /// The cell at a slot of the log, once all hands are back.
    pub fn logged(&self, root: &mut Root, at: u32) -> u32
        requires root { root.old.board ≡ self.now }
        requires settled { root.old.out ≡ 0 }
        requires at { at < filled_slots root.old.accounts self.now.slots }
        ensures cell { log_count root.old.accounts < 2 ^ 64 → result ≡ cell_at at (all_logs root.old.accounts) }
        ensures same { root.new ≡ root.old }
    {
        let shared = &self.table.shared;
        let slot = self.tail + 1 + at as usize;
        shared.load::<Looking>(&mut root.seat, slot) as u32
    }

    /// Loads a counter's word, so that a cut that follows finds it near. It takes no hand and no root: nothing is done on the
    /// board, and nothing is answered.
    pub fn prefetch(&self, counter: u32)
        requires { counter < length self.now.starts }
    {
        let shared = &self.table.shared;
        let _found = shared.peek(counter as usize);
    }

    /// What is left of a counter, once all hands are back.
    pub fn left(&self, root: &mut Root, counter: u32) -> u64
        requires root { root.old.board ≡ self.now }
        requires settled { root.old.out ≡ 0 }
        requires counter { counter < length self.now.starts }
        ensures lawful { IsLawfulCounter root.old.accounts counter (slice_index self.now.starts counter) result }
        ensures same { root.new ≡ root.old }
    {
        let shared = &self.table.shared;
        shared.load::<Looking>(&mut root.seat, counter as usize)
    }

    /// A minimum, once all hands are back.
    pub fn read(&self, root: &mut Root, word: u32) -> u64
        requires root { root.old.board ≡ self.now }
        requires settled { root.old.out ≡ 0 }
        requires word { word < length self.now.least }
        ensures lawful { IsLawfulLeast root.old.accounts word (slice_index self.now.least word) result }
        ensures same { root.new ≡ root.old }
    {
        let shared = &self.table.shared;
        let at = self.counters + word as usize;
        shared.load::<Looking>(&mut root.seat, at)
    }
}

/// Numbers with so many zeros after them.
fn with_zeros(mut words: Vec<u64>, zeros: usize) -> Result<Vec<u64>, AllocError>
    requires { vec_len words + zeros < 2 ^ 64 }
    ensures { IfOk result (λ all. all.items ≡ words.items ++ replicate zeros 0) }
{
    words.resize(words.len() + zeros, 0)?;
    Ok(words)
}
