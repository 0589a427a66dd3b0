ghost use Rattle.std.specs.Prelude.{◌≡◌};
ghost use Rattle.std.specs.List.{concat};
ghost use Rattle.row_runs.specs.RunText.{run_lines};

use crate::line_text::LineText;
use crate::row_format::RowFormat;
use crate::runs::Runs;
use game_core::Answer;
use std::marker::Model;
use text_pieces::{Pieces, copy_prefix};

/// The lines of the runs of rows, piece by piece. Seen as the bytes that are still to come.
#[derive(Drop)]
pub struct RunLines<'a> {
    format: RowFormat,
    /// What is left of the line that is being written.
    line: LineText,
    /// The runs after it.
    runs: Runs<'a>,
}

impl<'a> Model for RunLines<'a> {
    ghost use Rattle.std.specs.Prelude.{List, ℕ, map, ◌++◌};
    ghost use Rattle.std.specs.List.{concat};
    ghost use Rattle.row_runs.specs.declared.run.TableVersion.TheVariants.{Second};
    ghost use Rattle.row_runs.specs.RunText.{run_line};

    ghost Value = { List ℕ };

    ghost view = { λ l. l.line ++ concat (map (run_line Second l.format) l.runs) };
}

impl<'a> RunLines<'a> {
    /// The lines of all runs.
    pub fn new(format: RowFormat, answer: &'a Answer) -> RunLines<'a>
        ensures { result ≡ concat (run_lines format answer.now) }
    {
        RunLines {
            format,
            line: LineText::empty(),
            runs: Runs::new(answer),
        }
    }
}

impl Pieces for RunLines<'_> {
    ghost left = { λ l. l };

    fn copy_some(&mut self, buf: &mut [u8]) -> usize {
        if self.line.as_slice().is_empty() {
            let Some(run) = self.runs.next() else {
                return 0;
            };
            self.line.write_run(self.format, run);
        }
        let count = copy_prefix(self.line.as_slice(), buf);
        self.line.advance(count);
        count
    }
}
