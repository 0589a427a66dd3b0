ghost use Rattle.std.specs.Prelude.{◌≡◌, IfOk};
ghost use Rattle.temporal_texts.specs.StayText.{stay_text};

use controller_table::{RowsWriter, TextKind};
use game_core::{Answer, NoMemory};
use plant_record::Plant;
use std::alloc::Global;
use std::marker::Model;
use std::slice;
use text_pieces::Pieces;

/// Writes the text of reach and stay piece by piece. Seen as the bytes that are still to come.
#[derive(Drop)]
pub struct StayWriter<'a> {
    text: RowsWriter<'a>,
}

impl<'a> Model for StayWriter<'a> {
    ghost use Rattle.std.specs.Prelude.{List, ℕ};

    ghost Value = { List ℕ };

    ghost view = { λ w. w.text };
}

impl<'a> StayWriter<'a> {
    /// The writer of a plant's text. It takes all its memory here.
    pub fn new(alloc: Global, p: &Plant, a: &'a Answer) -> Result<StayWriter<'a>, NoMemory>
        ensures { IfOk result (λ w. w ≡ stay_text p.now a.now) }
    {
        let text = RowsWriter::new(alloc, TextKind::Stay, p, slice::from_ref(a))?;
        Ok(StayWriter { text })
    }
}

impl Pieces for StayWriter<'_> {
    ghost left = { λ w. w };

    fn copy_some(&mut self, buf: &mut [u8]) -> usize {
        self.text.copy_some(buf)
    }
}
