ghost use Rattle.std.specs.Prelude.{◌≡◌, IfOk};
ghost use Rattle.temporal_texts.specs.PatrolText.{patrol_text};

use controller_table::{RowsWriter, TextKind};
use game_core::NoMemory;
use plant_record::Plant;
use std::alloc::Global;
use std::marker::Model;
use text_pieces::Pieces;
use turn_rows::PatrolRows;

/// Writes the text of a patrol piece by piece. Seen as the bytes that are still to come.
#[derive(Drop)]
pub struct PatrolWriter<'a> {
    text: RowsWriter<'a>,
}

impl<'a> Model for PatrolWriter<'a> {
    ghost use Rattle.std.specs.Prelude.{List, ℕ};

    ghost Value = { List ℕ };

    ghost view = { λ w. w.text };
}

impl<'a> PatrolWriter<'a> {
    /// The writer of a plant's text. It takes all its memory here.
    pub fn new(alloc: Global, p: &Plant, a: &'a PatrolRows) -> Result<PatrolWriter<'a>, NoMemory>
        ensures { IfOk result (λ w. w ≡ patrol_text p.now a.now) }
    {
        let text = RowsWriter::new(alloc, TextKind::Patrol, p, a.as_slice())?;
        Ok(PatrolWriter { text })
    }
}

impl Pieces for PatrolWriter<'_> {
    ghost left = { λ w. w };

    fn copy_some(&mut self, buf: &mut [u8]) -> usize {
        self.text.copy_some(buf)
    }
}
