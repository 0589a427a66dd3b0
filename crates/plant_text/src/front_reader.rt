ghost use Rattle.std.specs.Prelude.{◌≡◌, ◌≢◌, ◌+◌, ◌^◌, ◌<◌, ◌≤◌, length, take, IfOk, IfErr, true};
ghost use Rattle.plant_text.specs.declared.plant_fault.PlantFault.TheVariants.{Memory};
ghost use Rattle.plant_record.specs.Limits.{IsWithinLimits};
ghost use Rattle.plant_text.specs.CanonicalFronts.{IsFront, IsFrontRefusedFor};
ghost use Rattle.plant_text.specs.inside.PartialPlantText.{partial_text, IsOrderly};
ghost use Rattle.plant_text.specs.inside.PartialPlantRules.{KeepsRules};
ghost use Rattle.plant_text.specs.inside.DraftsInMemory.{partial_of};

use crate::draft::Draft;
use crate::plant_fault::{PlantFault, at_line};
use plant_reading::next_full_line;
use plant_record::Plant;
use std::alloc::Global;

/// The plant whose canonical text stands at the front of some bytes.
#[derive(Drop)]
pub struct Front {
    pub plant: Plant,
    /// How many bytes its text has.
    pub length: usize,
}

/// Reads the canonical plant text with which some bytes begin, up to its line `end` and no further,
/// or answers why there is none. The bytes are so few that 32 bits count their lines.
pub fn read_front(alloc: Global, bytes: &[u8]) -> Result<Front, PlantFault>
    requires { length bytes.now < 2 ^ 31 }
    ensures read { IfOk result (λ f. IsFront bytes.now f.plant f.length × IsWithinLimits f.plant) }
    ensures refused { IfErr result (λ fault. fault ≢ Memory → IsFrontRefusedFor bytes.now fault) }
{
    let (draft, length) = read_lines(alloc, bytes)?;
    match draft.finish() {
        Ok(plant) => Ok(Front { plant, length }),
        Err(what) => Err(PlantFault::Limit { what }),
    }
}

/// Reads canonical lines up to the line `end`. Answers also how many bytes they are.
fn read_lines(alloc: Global, bytes: &[u8]) -> Result<(Draft, usize), PlantFault>
    requires { length bytes.now < 2 ^ 31 }
    ensures rules { IfOk result (λ r. KeepsRules (partial_of r.0)) }
    ensures closed { IfOk result (λ r. r.0.ended ≡ true) }
    ensures orderly { IfOk result (λ r. IsOrderly (partial_of r.0)) }
    ensures within { IfOk result (λ r. r.1 ≤ length bytes.now) }
    ensures text { IfOk result (λ r. take r.1 bytes.now ≡ partial_text (partial_of r.0)) }
    ensures refused { IfErr result (λ fault. fault ≢ Memory → IsFrontRefusedFor bytes.now fault) }
{
    let mut draft = Draft::new(alloc);
    let mut scratch = Vec::new(alloc);
    let mut rest = bytes;
    let mut number: u32 = 1;
    while !draft.has_ended() {
        let Some((line, after)) = next_full_line(rest) else {
            return Err(PlantFault::Malformed { line: number });
        };
        if let Err(fault) = draft.read_canonical_line(alloc, line, &mut scratch) {
            return Err(at_line(fault, number));
        }
        rest = after;
        number += 1;
    }
    Ok((draft, bytes.len() - rest.len()))
}
