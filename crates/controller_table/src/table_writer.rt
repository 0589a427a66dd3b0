ghost use Rattle.std.specs.Prelude.{◌≡◌, IfOk};
ghost use Rattle.controller_table.specs.TableText.{written_version};
ghost use Rattle.controller_table.specs.KindTexts.{table_text};
ghost use Rattle.controller_table.specs.Tables.{RowsFit};

use crate::rows_writer::RowsWriter;
use crate::table::Table;
use crate::text_kind::TextKind;
use base::NoMemory;
use game_core::Answer;
use plant_record::Plant;
use row_runs::TableVersion;
use std::alloc::Global;
use std::marker::Model;
use std::slice;
use text_pieces::Pieces;

/// Writes the text of a table piece by piece. Seen as the bytes that are still to come.
#[derive(Drop)]
pub struct TableWriter<'a> {
    text: RowsWriter<'a>,
}

impl<'a> Model for TableWriter<'a> {
    ghost use Rattle.std.specs.Prelude.{List, ℕ};

    ghost Value = { List ℕ };

    ghost view = { λ w. w.text };
}

impl<'a> TableWriter<'a> {
    /// The writer of a plant's table. It takes all its memory here.
    pub fn new(alloc: Global, p: &Plant, a: &'a Answer) -> Result<TableWriter<'a>, NoMemory>
        requires { RowsFit p.now a.now }
        ensures { IfOk result (λ w. w ≡ table_text written_version p.now a.now) }
    {
        let kind = TextKind::Table(TableVersion::Second);
        let text = RowsWriter::new(alloc, kind, p, slice::from_ref(a))?;
        Ok(TableWriter { text })
    }

    /// The writer of a table that was read.
    pub fn of(alloc: Global, t: &'a Table) -> Result<TableWriter<'a>, NoMemory>
        ensures { IfOk result (λ w. w ≡ table_text written_version t.now.plant t.now.rows) }
    {
        TableWriter::new(alloc, t.plant(), t.answer())
    }
}

impl Pieces for TableWriter<'_> {
    ghost left = { λ w. w };

    fn copy_some(&mut self, buf: &mut [u8]) -> usize {
        self.text.copy_some(buf)
    }
}
