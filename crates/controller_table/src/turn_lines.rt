ghost use Rattle.std.specs.Prelude.{◌≡◌, ◌^◌, ◌<◌, ◌≤◌, ◌++◌, [], length, take, drop};
ghost use Rattle.std.specs.List.{concat};
ghost use Rattle.row_runs.specs.declared.run.TableVersion.TheVariants.{Second};
ghost use Rattle.row_reading.specs.RowsTexts.{head_line, lines_by};
ghost use Rattle.controller_table.specs.inside.Left.{left_of};

use game_core::Answer;
use row_reading::TurnHead;
use row_runs::{LineText, RowFormat, RunLines, count_runs};
use std::marker::Model;
use text_pieces::{Pieces, copy_prefix};

/// The lines of all turns, piece by piece. Seen as the bytes that are still to come.
#[derive(Drop)]
pub(crate) struct TurnLines<'a> {
    head: TurnHead,
    format: RowFormat,
    turns: &'a [Answer],
    /// The turns from this one on.
    turn: u32,
    /// What is left of the line of the turn before it, and of the lines of its runs.
    line: LineText,
    runs: Option<RunLines<'a>>,
}

impl<'a> Model for TurnLines<'a> {
    ghost use Rattle.std.specs.Prelude.{List, ℕ, ◌^◌, ◌++◌, drop, ◌<◌, ◌≤◌, length};
    ghost use Rattle.std.specs.List.{concat};
    ghost use Rattle.row_runs.specs.declared.run.TableVersion.TheVariants.{Second};
    ghost use Rattle.row_reading.specs.RowsTexts.{lines_by};
    ghost use Rattle.controller_table.specs.inside.Left.{left_of};

    ghost Value = { List ℕ };

    ghost view = { λ t. t.line ++ (left_of t.runs ++ concat (lines_by t.head Second t.format t.turn (drop t.turn t.turns.now))) };

    ghost invariant = { λ t. (t.turn ≤ length t.turns.now) × (length t.turns.now < 2 ^ 32) };
}

impl<'a> TurnLines<'a> {
    /// The lines of all turns.
    pub(crate) fn new(head: TurnHead, format: RowFormat, turns: &'a [Answer]) -> TurnLines<'a>
        requires { length turns.now < 2 ^ 32 }
        ensures { result ≡ concat (lines_by head Second format 0 turns.now) }
    {
        TurnLines {
            head,
            format,
            turns,
            turn: 0,
            line: LineText::empty(),
            runs: None,
        }
    }
}

impl Pieces for TurnLines<'_> {
    ghost left = { λ t. t };

    fn copy_some(&mut self, buf: &mut [u8]) -> usize {
        if self.line.as_slice().is_empty() {
            let count = copy_runs(&mut self.runs, buf);
            if count > 0 {
                return count;
            }
            if self.turn as usize == self.turns.len() {
                return 0;
            }
            let rows = &self.turns[self.turn as usize];
            write_head(&mut self.line, self.head, self.turn, count_runs(rows));
            self.runs = Some(RunLines::new(self.format, rows));
            self.turn += 1;
        }
        let count = copy_prefix(self.line.as_slice(), buf);
        self.line.advance(count);
        count
    }
}

/// Copies some of the bytes that are left, where there are any.
fn copy_runs(runs: &mut Option<RunLines>, buf: &mut [u8]) -> usize
    requires { 0 < length buf.old }
    ensures some { result ≡ 0 → left_of runs.old ≡ [] }
    ensures within { result ≤ length (left_of runs.old) }
    ensures bound { result ≤ length buf.old }
    ensures copied { buf.new ≡ take result (left_of runs.old) ++ drop result buf.old }
    ensures rest { left_of runs.new ≡ drop result (left_of runs.old) }
{
    match runs {
        Some(lines) => lines.copy_some(buf),
        None => 0,
    }
}

/// The line before the rows of a turn.
fn write_head(line: &mut LineText, head: TurnHead, turn: u32, runs: u32)
    ensures text { line.new ≡ head_line head turn runs }
    ensures some { 0 < length line.new }
{
    line.begin();
    line.prepend_number(runs);
    line.prepend(b"rows ");
    if head == TurnHead::Numbered {
        line.prepend(b" ");
        line.prepend_number(turn);
        line.prepend(b"turn ");
    }
}
