ghost use Rattle.std.specs.Prelude.{◌≡◌, ◌≢◌, ◌<◌, [], IfOk, IfErr, true};
ghost use Rattle.plant_text.specs.declared.plant_fault.PlantFault.TheVariants.{Memory};
ghost use Rattle.line_words.specs.Lines.{lines_of};
ghost use Rattle.text_pieces.specs.Steps.{IsReading};
ghost use Rattle.plant_text.specs.Grammar.{nothing_yet, LineStep, IsEnded, Spells};
ghost use Rattle.plant_record.specs.Limits.{IsWithinLimits};
ghost use Rattle.plant_text.specs.PlantRefusals.{IsShort, IsRefusedFor};
ghost use Rattle.plant_text.specs.inside.PartialPlantRules.{KeepsRules};
ghost use Rattle.plant_text.specs.inside.DraftsInMemory.{partial_of};

use crate::draft::Draft;
use crate::plant_fault::{PlantFault, at_line};
use base::limits::TEXT_LIMIT;
use plant_reading::next_line;
use plant_record::{LimitKind, Plant};
use std::alloc::Global;

/// Reads the plant that a text spells, or answers why the text is refused: the first reason that
/// applies. It goes over the bytes once, and keeps no copy of the text.
pub fn read_plant(alloc: Global, bytes: &[u8]) -> Result<Plant, PlantFault>
    ensures short { IfOk result (λ _. IsShort bytes.now) }
    ensures spelled { IfOk result (λ p. Spells bytes.now p) }
    ensures limits { IfOk result (λ p. IsWithinLimits p) }
    ensures refused { IfErr result (λ fault. fault ≢ Memory → IsRefusedFor bytes.now fault) }
{
    if bytes.len() > TEXT_LIMIT {
        return Err(PlantFault::Limit {
            what: LimitKind::PlantText,
        });
    }
    let draft = read_lines(alloc, bytes)?;
    draft.finish().map_err(|what| PlantFault::Limit { what })
}

/// Reads the lines of a text, the last of which is `end` but for those that are skipped.
fn read_lines(alloc: Global, bytes: &[u8]) -> Result<Draft, PlantFault>
    requires { IsShort bytes.now }
    ensures read { IfOk result (λ d. IsReading LineStep IsEnded nothing_yet (lines_of bytes.now) (partial_of d) []) }
    ensures rules { IfOk result (λ d. KeepsRules (partial_of d)) }
    ensures closed { IfOk result (λ d. d.ended ≡ true) }
    ensures refused { IfErr result (λ fault. fault ≢ Memory → IsRefusedFor bytes.now fault) }
{
    let mut draft = Draft::new(alloc);
    let mut rest = bytes;
    let mut number: u32 = 1;
    while let Some((line, after)) = next_line(rest) {
        if let Err(fault) = draft.read_line(alloc, line) {
            return Err(at_line(fault, number));
        }
        rest = after;
        number += 1;
    }
    if !draft.has_ended() {
        return Err(PlantFault::Malformed { line: number });
    }
    Ok(draft)
}
