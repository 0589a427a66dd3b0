//! The rounds, one after another.
ghost use Rattle.std.specs.Prelude.{◌≡◌, ◌<◌, ◌≤◌, [], All, IsPermutation, IfOk, length, vec_len};
ghost use Rattle.base.specs.Workers.{AreWorkers};
ghost use Rattle.std.specs.Vec.{vec_capacity};
ghost use Rattle.std.specs.List.{range_with_len};
ghost use Rattle.cell_counters.specs.BoardModels.{new_root};
ghost use Rattle.board_rounds.specs.Crew.{IsFresh, notes_of};
ghost use Rattle.board_rounds.specs.Rounds.{IsUnused, IsOver};
ghost use Rattle.board_rounds.specs.inside.RoundInvariant.{IsRoundInvariant, to_go};
ghost use Rattle.board_rounds.specs.inside.WorkerSteps.{AllAtWork};
ghost use Rattle.base.specs.declared.limits.TheConstants.{WORKERS_LIMIT};

use crate::first::first_list;
use crate::logged::read_log;
use crate::round_job::RoundJob;
use crate::rule::Rule;
use crate::worker::Worker;
use crate::workers::{add_workers, take_in, work};
use cell_counters::{Board, Root};
use frontier_pool::{Gate, Member, hands_for};
use game_core::{NoMemory, Tally};
use rayon::prelude::*;
use std::alloc::Global;
use std::thread::Threads;

/// The rounds of a game on a board, and the memory that they take.
#[derive(Drop)]
pub struct Rounds {
    pub root: Root,
    /// Empty between rounds, with capacity for all workers.
    pub members: Vec<Member<Worker>>,
    /// The cells of the next round, with capacity for all cells.
    pub list: Vec<u32>,
    /// How many slots of the log were put on a list.
    pub listed: u32,
    /// The cuts and offers so far modulo 2^64, and the rounds.
    pub tally: Tally,
}

impl Rounds {
    /// Before the first round.
    pub fn new(alloc: Global, root: Root, cells: u32, workers: u32) -> Result<Rounds, NoMemory>
        ensures { IfOk result (IsUnused root cells workers) }
    {
        let members = Vec::with_capacity(alloc, workers as usize)?;
        let list = Vec::with_capacity(alloc, cells as usize)?;
        let tally = Tally {
            cuts: 0,
            offers: 0,
            rounds: 0,
        };
        Ok(Rounds {
            root,
            members,
            list,
            listed: 0,
            tally,
        })
    }

    /// Does rounds until a list is empty: one with the list that the rule begins with, then one with what each round logged.
    ///
    /// In a round each cell of the list is done by exactly one worker, after the gate (tested: `Gate`), and then all hands are taken in.
    pub fn run_all<R: Threads + Sync, L: Rule, T: Gate>(
        &mut self,
        rt: &R,
        alloc: Global,
        board: &Board,
        rule: &L,
        workers: u32,
        gate: &T,
    )
        requires board { L.fits rule.now board.now }
        requires slots { board.now.slots ≡ (L.game rule.now).cells }
        requires workers { AreWorkers workers }
        requires unused { IsUnused (new_root board.now) (L.game rule.now).cells workers self.old }
        ensures over { IsOver board.now (L.game rule.now).cells self.new }
        ensures holds_before { L.holds_before rule.now self.new.tally.rounds [] self.new.root.accounts }
    {
        first_list(board, &mut self.root, &mut self.list, rule);
        'rounds: while !self.list.is_empty() {
            self.run_round(rt, alloc, board, rule, workers, gate);
        }
    }

    /// Does one round.
    fn run_round<R: Threads + Sync, L: Rule, T: Gate>(
        &mut self,
        rt: &R,
        alloc: Global,
        board: &Board,
        rule: &L,
        workers: u32,
        gate: &T,
    )
        requires board { L.fits rule.now board.now }
        requires slots { board.now.slots ≡ (L.game rule.now).cells }
        requires workers { AreWorkers workers }
        requires holds_before { IsRoundInvariant (L.holds_before rule.now) board.now (L.game rule.now).cells workers self.old }
        requires some { 0 < vec_len self.old.list }
        ensures holds_before { IsRoundInvariant (L.holds_before rule.now) board.now (L.game rule.now).cells workers self.new }
        ensures nearer { to_go (L.game rule.now).cells self.new < to_go (L.game rule.now).cells self.old }
    {
        let items = self.list.len() as u32;
        let cuts = expected_cuts(rule, &self.list);
        let hands = hands_for(self.tally.rounds, items, cuts, workers);
        add_workers(board, &mut self.root, &mut self.members, hands);
        arrange(rt, &mut self.list, hands);
        let round_job = RoundJob {
            rule,
            board,
            list: self.list.as_slice(),
            round: self.tally.rounds,
            items,
        };
        do_items(rt, alloc, &round_job, &mut self.members, gate);
        take_in(board, &mut self.root, &mut self.members, &mut self.tally);
        self.listed = read_log(board, &mut self.root, &mut self.list, self.listed);
        self.tally.rounds += 1;
    }
}

/// Puts the cells of a list in order where several hands do them, so that one hand mostly cuts what lies together. The order
/// in which hands logged them has neighbours far apart.
fn arrange<R: Threads + Sync>(rt: &R, list: &mut Vec<u32>, hands: u32)
    ensures same { IsPermutation list.old.items list.new.items }
    ensures long { vec_len list.new ≡ vec_len list.old }
    ensures capacity { vec_capacity list.new ≡ vec_capacity list.old }
{
    if hands > 1 {
        par_sort_unstable(rt, list);
    }
}

/// About how many cuts the round of a list takes: as if its cells had as many sources each as the first, the middle and
/// the last of them on average.
fn expected_cuts<L: Rule>(rule: &L, list: &[u32]) -> u64
    requires some { 0 < length list.now }
    requires cells { All (λ c. c < (L.game rule.now).cells) list.now }
{
    let cells = list.len();
    let first = rule.sources(list[0]).len() as u64;
    let middle = rule.sources(list[cells / 2]).len() as u64;
    let last = rule.sources(list[cells - 1]).len() as u64;
    let three = first.saturating_add(middle).saturating_add(last);
    three.saturating_mul(cells as u64) / 3
}

/// New workers do all items of the round.
fn do_items<R: Threads + Sync, L: Rule, T: Gate>(
    rt: &R,
    alloc: Global,
    round_job: &RoundJob<'_, L>,
    members: &mut Vec<Member<Worker>>,
    gate: &T,
)
    requires members { (0 < vec_len members.old) × (vec_len members.old ≤ WORKERS_LIMIT) }
    requires board { L.fits round_job.now.rule.now round_job.now.board.now }
    requires fresh { All (IsFresh round_job.now.board.now) members.old.items }
    ensures worked { AllAtWork (L.game round_job.now.rule.now) (L.fits round_job.now.rule.now) (L.keeps round_job.now.rule.now round_job.now.round) round_job.now.board.now round_job.now.list.now members.new.items }
    ensures swept { IsPermutation (range_with_len 0 round_job.now.items) (notes_of members.new.items) }
    ensures members { vec_len members.new ≡ vec_len members.old }
    ensures capacity { vec_capacity members.new ≡ vec_capacity members.old }
{
    work(rt, alloc, round_job, members.as_mut_slice(), gate);
}
