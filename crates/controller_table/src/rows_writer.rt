ghost use Rattle.std.specs.Prelude.{◌≡◌, ◌^◌, ◌<◌, ◌++◌, length, IfOk};
ghost use Rattle.plant_writing.specs.CanonicalText.{text_of};
ghost use Rattle.controller_table.specs.TableText.{written_version};
ghost use Rattle.controller_table.specs.TextKinds.{turn_rules};
ghost use Rattle.controller_table.specs.KindTexts.{rows_text};

use crate::text_kind::TextKind;
use crate::turn_lines::TurnLines;
use base::NoMemory;
use game_core::Answer;
use plant_record::Plant;
use plant_writing::write_plant;
use row_runs::FramedText;
use std::alloc::Global;
use std::marker::Model;
use text_pieces::Pieces;

/// Writes the text of a kind, of a plant and its rows turn by turn, piece by piece. Seen as the bytes that are still to come.
#[derive(Drop)]
pub struct RowsWriter<'a> {
    text: FramedText<TurnLines<'a>>,
}

impl<'a> Model for RowsWriter<'a> {
    ghost use Rattle.std.specs.Prelude.{List, ℕ};

    ghost Value = { List ℕ };

    ghost view = { λ w. w.text };
}

impl<'a> RowsWriter<'a> {
    /// The writer of a kind's text. It takes all its memory here.
    pub fn new(
        alloc: Global,
        kind: TextKind,
        p: &Plant,
        turns: &'a [Answer],
    ) -> Result<RowsWriter<'a>, NoMemory>
        requires written { (turn_rules kind p.now).rows.version ≡ written_version }
        requires few { length turns.now < 2 ^ 32 }
        ensures { IfOk result (λ w. w ≡ rows_text kind p.now turns.now) }
    {
        let header = header_of(alloc, kind.first_line(), p)?;
        let rules = kind.rules(p);
        let lines = TurnLines::new(rules.head, rules.rows.format, turns);
        Ok(RowsWriter {
            text: FramedText::new(header, lines),
        })
    }
}

impl Pieces for RowsWriter<'_> {
    ghost left = { λ w. w };

    fn copy_some(&mut self, buf: &mut [u8]) -> usize {
        self.text.copy_some(buf)
    }
}

/// The bytes before the rows: the first line, and the plant's text.
fn header_of(alloc: Global, first_line: &[u8], p: &Plant) -> Result<Vec<u8>, NoMemory>
    ensures { IfOk result (λ header. header.items ≡ first_line.now ++ text_of p.now) }
{
    let mut header = Vec::from_slice(alloc, first_line)?;
    write_plant(alloc, p, &mut header)?;
    Ok(header)
}
