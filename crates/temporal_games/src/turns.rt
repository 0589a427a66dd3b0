//! The search for a patrol, turn by turn.
ghost use Rattle.std.specs.Prelude.{◌≡◌, ℕ, ◌<◌, ◌≤◌, ◌^◌, true, false, length, IfOk, IfSome};
ghost use Rattle.base.specs.Workers.{AreWorkers};
ghost use Rattle.std.specs.Option.{IfNone};
ghost use Rattle.plant_game.specs.Abstraction.{IsGameOf};
ghost use Rattle.game_core.specs.Keep.{IsKeepSolution};
ghost use Rattle.temporal_games.specs.inside.PatrolSearch.{PatrolProgress, is_due, AreLaterReachRows, AreTurnMarks, HasOneEach, HaveObstacles, IsAtStart, IsBefore, IsSolvedAt};

use crate::arrivals::Arrivals;
use crate::best_row::best_row;
use frontier_pool::Gate;
use game_core::{Answer, Graph, Mark, NoMemory, Remark};
use plant_record::Plant;
use reach_avoid::solve;
use std::alloc::Global;
use std::marker::Model;
use std::thread::Threads;
use turn_rows::PatrolRows;

/// For each turn its arrivals, its rows, and whether it is to be solved again.
#[derive(Drop)]
pub(crate) struct PatrolSearch {
    arrivals: Vec<Arrivals>,
    rows: Vec<Answer>,
    due: Vec<bool>,
}

impl Model for PatrolSearch {
    ghost use Rattle.temporal_games.specs.inside.PatrolSearch.{PatrolProgress};

    ghost Value = { PatrolProgress };

    ghost view = { λ t. record { marks = t.arrivals.items; rows = t.rows.items; due = t.due.items } };
}

impl PatrolSearch {
    /// Every turn is due, and its arrivals are the cells of its target that are kept.
    pub(crate) fn new<G: Graph>(
        alloc: Global,
        g: &G,
        p: &Plant,
        kept_answer: &Answer,
    ) -> Result<PatrolSearch, NoMemory>
        requires game { IsGameOf p.now (G.game g.now) }
        requires kept { IsKeepSolution (G.game g.now) kept_answer.now }
        ensures { IfOk result (IsAtStart p.now (G.game g.now)) }
    {
        let turns = p.targets();
        let due = vec![in alloc; true; turns as usize]?;
        let mut arrivals = Vec::new(alloc);
        let mut rows = Vec::new(alloc);
        for turn in 0..turns {
            let mut first = Arrivals::in_target(alloc, g, p, turn)?;
            first.remove_lost(kept_answer);
            arrivals.push(first).map_err(|_| NoMemory)?;
            let blank = Answer::blank(alloc, 0)?;
            rows.push(blank).map_err(|_| NoMemory)?;
        }
        Ok(PatrolSearch {
            arrivals,
            rows,
            due,
        })
    }

    /// The last turn that is due.
    pub(crate) fn last_due(&self) -> Option<u32>
        requires { length self.now.due < 2 ^ 32 }
        ensures some { IfSome result (λ turn. (turn < length self.now.due) × (is_due self.now.due turn ≡ true)) }
        ensures none { IfNone result ((j : ℕ) → j < length self.now.due → is_due self.now.due j ≡ false) }
    {
        for turn in (0..self.due.len() as u32).rev() {
            if self.due[turn as usize] {
                return Some(turn);
            }
        }
        None
    }

    /// Solves a turn: the arrivals before it that have no row for it are withdrawn.
    pub(crate) fn solve_turn<R: Threads + Sync, G: Graph + Sync, T: Gate>(
        &mut self,
        rt: &R,
        alloc: Global,
        g: &G,
        turn: u32,
        workers: u32,
        gate: &T,
    ) -> Result<(), NoMemory>
        requires turn { turn < length self.old.due }
        requires one_each { HasOneEach self.old }
        requires marks { HaveObstacles (G.game g.now) self.old }
        requires workers { AreWorkers workers }
        ensures { IfOk result (λ _. IsSolvedAt (G.game g.now) turn self.old self.new) }
    {
        let rows = later_reach_rows(rt, alloc, g, &self.arrivals[turn as usize], workers, gate)?;
        let before = turn_before(turn, self.due.len() as u32);
        self.due[turn as usize] = false;
        if self.arrivals[before as usize].remove_lost(&rows) {
            self.due[before as usize] = true;
        }
        self.rows[turn as usize] = rows;
        Ok(())
    }

    pub(crate) fn into_rows(self) -> PatrolRows
        requires { length self.rows < 2 ^ 32 }
        ensures { result ≡ self.rows }
    {
        PatrolRows::new(self.rows)
    }
}

/// The rows of a turn: to its arrivals, from each cell by at least one input.
fn later_reach_rows<R: Threads + Sync, G: Graph + Sync, T: Gate>(
    rt: &R,
    alloc: Global,
    g: &G,
    arrivals: &Arrivals,
    workers: u32,
    gate: &T,
) -> Result<Answer, NoMemory>
    requires marks { AreTurnMarks (G.game g.now) (λ _. Unit {0}) arrivals.now }
    requires workers { AreWorkers workers }
    ensures { IfOk result (AreLaterReachRows (G.game g.now) arrivals.now) }
{
    let game = Remark::new(g, arrivals.marks());
    let solved = solve(rt, alloc, &game, workers, gate)?.answer;
    let mut rows = Answer::blank(alloc, g.cells())?;
    for c in 0..g.cells() {
        let row = match game.mark(c) {
            Mark::Goal => best_row(&game, &solved, c),
            Mark::Obstacle | Mark::Plain => solved.row(c),
        };
        rows.set(c, row);
    }
    Ok(rows)
}

/// The turn before a turn: the last comes before the first.
fn turn_before(turn: u32, turns: u32) -> u32
    requires { turn < turns }
    ensures { IsBefore turns turn result }
{
    if turn == 0 { turns - 1 } else { turn - 1 }
}
