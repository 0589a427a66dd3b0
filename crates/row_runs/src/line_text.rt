ghost use Rattle.std.specs.Prelude.{◌≡◌, ◌+◌, ◌<◌, ◌≤◌, ◌∷◌, ◌++◌, [], length, drop};
ghost use Rattle.std.specs.Fmt.{decimal};
ghost use Rattle.row_runs.specs.RunText.{rank_field, input_field, run_line};
ghost use Rattle.row_runs.specs.declared.run.TableVersion.TheVariants.{Second};

use crate::row_format::RowFormat;
use crate::run::Run;
use game_core::Row;
use itoa::write_digits;
use std::marker::Model;

/// As many bytes as the longest line has: a word, three numbers of 32 bits and six of 128 bits, with a byte after each.
pub const LINE_CAPACITY: usize = 320;

/// A line that is written from its end, and then taken from its front. Seen as its bytes.
#[derive(Drop)]
pub struct LineText {
    bytes: [u8; LINE_CAPACITY],
    /// The bytes from here on.
    start: usize,
}

impl Model for LineText {
    ghost use Rattle.std.specs.Prelude.{List, ℕ, drop, ◌≤◌};
    ghost use Rattle.row_runs.specs.declared.line_text.TheConstants.{LINE_CAPACITY};

    ghost Value = { List ℕ };

    ghost view = { λ l. drop l.start l.bytes };

    ghost invariant = { λ l. l.start ≤ LINE_CAPACITY };
}

impl LineText {
    /// No bytes.
    pub fn empty() -> LineText
        ensures text { result ≡ [] }
        ensures length { length result ≡ 0 }
    {
        LineText {
            bytes: [0; LINE_CAPACITY],
            start: LINE_CAPACITY,
        }
    }

    /// Begins a line anew, at the line feed that ends it.
    pub fn begin(&mut self)
        ensures text { self.new ≡ 10 ∷ [] }
        ensures length { length self.new ≡ 1 }
    {
        self.clear();
        self.prepend(b"\n");
    }

    fn clear(&mut self)
        ensures text { self.new ≡ [] }
        ensures length { length self.new ≡ 0 }
    {
        self.start = LINE_CAPACITY;
    }

    /// Puts bytes before the rest.
    pub fn prepend(&mut self, text: &[u8])
        requires { length text.now + length self.old ≤ LINE_CAPACITY }
        ensures text { self.new ≡ text.now ++ self.old }
        ensures length { length self.new ≡ length text.now + length self.old }
    {
        let start = self.start - text.len();
        self.bytes[start..self.start].copy_from_slice(text);
        self.start = start;
    }

    /// Puts a number's digits before the rest.
    pub fn prepend_number(&mut self, number: u32)
        requires { 10 + length self.old ≤ LINE_CAPACITY }
        ensures text { self.new ≡ decimal number ++ self.old }
        ensures length { length self.new ≤ 10 + length self.old }
    {
        self.start = write_digits(u64::from(number), &mut self.bytes, self.start);
    }

    /// Puts rank and input of a row, as its format prints them, before the rest, with a space before each.
    pub fn prepend_row(&mut self, format: RowFormat, row: Row)
        requires { 22 + length self.old ≤ LINE_CAPACITY }
        ensures text { self.new ≡ 32 ∷ (rank_field format row ++ 32 ∷ (input_field format row ++ self.old)) }
        ensures length { length self.new ≤ 22 + length self.old }
    {
        self.prepend_input(format, row);
        self.prepend(b" ");
        self.prepend_rank(format, row);
        self.prepend(b" ");
    }

    /// The line of a run.
    pub(crate) fn write_run(&mut self, format: RowFormat, run: Run)
        ensures text { self.new ≡ run_line Second format run }
        ensures some { 0 < length self.new }
    {
        self.begin();
        self.prepend_row(format, run.row);
        self.prepend_number(run.last);
        self.prepend(b" ");
        self.prepend_number(run.first);
    }

    fn prepend_input(&mut self, format: RowFormat, row: Row)
        requires { 10 + length self.old ≤ LINE_CAPACITY }
        ensures text { self.new ≡ input_field format row ++ self.old }
        ensures length { length self.new ≤ 10 + length self.old }
    {
        match format {
            RowFormat::InputAboveZero if row.rank == 0 => self.prepend(b"-"),
            _ => self.prepend_number(row.input),
        }
    }

    fn prepend_rank(&mut self, format: RowFormat, row: Row)
        requires { 10 + length self.old ≤ LINE_CAPACITY }
        ensures text { self.new ≡ rank_field format row ++ self.old }
        ensures length { length self.new ≤ 10 + length self.old }
    {
        match format {
            RowFormat::InputAlone => self.prepend(b"-"),
            RowFormat::InputAboveZero | RowFormat::Both => self.prepend_number(row.rank),
        }
    }

    /// The bytes that are left of the line.
    pub fn as_slice(&self) -> &[u8]
        ensures { result.now ≡ self.now }
    {
        &self.bytes[self.start..]
    }

    /// Takes the first bytes away.
    pub fn advance(&mut self, count: usize)
        requires { count ≤ length self.old }
        ensures { self.new ≡ drop count self.old }
    {
        self.start += count;
    }
}
