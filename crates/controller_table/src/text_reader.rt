//! Reads a text of a kind, or what stands after its first line.

ghost use Rattle.std.specs.Prelude.{◌≡◌, ◌≢◌, ◌+◌, ◌^◌, ◌<◌, ◌≤◌, ◌++◌, ℕ, length, IfOk, IfErr};
ghost use Rattle.plant_record.specs.Limits.{IsWithinLimits};
ghost use Rattle.plant_text.specs.CanonicalFronts.{IsFront};
ghost use Rattle.row_reading.specs.Counting.{line_count};
ghost use Rattle.controller_table.specs.declared.text_fault.TextFault.TheVariants.{Memory};
ghost use Rattle.controller_table.specs.TextKinds.{first_line};
ghost use Rattle.controller_table.specs.KindTexts.{IsTextOf};
ghost use Rattle.controller_table.specs.HeadedTexts.{Only, AreLinesRefusedFor, IsTextRefusedFor};
ghost use Rattle.controller_table.specs.inside.TextReading.{IsPlantRefused, fault_of_front};

use crate::rows_text::RowsText;
use crate::text_fault::TextFault;
use crate::text_kind::TextKind;
use plant_record::LimitKind;
use plant_text::{Front, PlantFault, read_front};
use row_reading::{line_count, read_turns};
use std::alloc::Global;

/// Reads the text of a kind that the bytes are, or answers why they are none.
pub fn read_kind(alloc: Global, kind: TextKind, bytes: &[u8]) -> Result<RowsText, TextFault>
    ensures kind { IfOk result (λ t. t.kind ≡ kind) }
    ensures read { IfOk result (λ t. IsTextOf kind bytes.now t.plant t.turns) }
    ensures refused { IfErr result (λ fault. fault ≢ Memory → IsTextRefusedFor (Only kind) bytes.now fault) }
{
    if bytes.len() > kind.most_bytes() {
        let what = LimitKind::TableText;
        return Err(TextFault::Limit { what });
    }
    let Some(rest) = kind.take_first_line(bytes) else {
        return Err(TextFault::Malformed { line: 1 });
    };
    read_after(alloc, kind, rest)
}

/// Reads the text of a kind from what stands after its first line, or answers why it is none. The bytes are so few that
/// 32 bits count their lines.
pub fn read_after(alloc: Global, kind: TextKind, rest: &[u8]) -> Result<RowsText, TextFault>
    requires { length rest.now < 2 ^ 30 }
    ensures kind { IfOk result (λ t. t.kind ≡ kind) }
    ensures read { IfOk result (λ t. IsTextOf kind (first_line kind ++ rest.now) t.plant t.turns) }
    ensures refused { IfErr result (λ fault. fault ≢ Memory → AreLinesRefusedFor (Only kind) (first_line kind ++ rest.now) fault) }
{
    let Front { plant, length } = take_plant(alloc, rest)?;
    if !kind.has_few_turns(&plant) {
        return Err(TextFault::Turns);
    }
    match read_turns(alloc, kind.rules(&plant), &rest[length..]) {
        Ok(turns) => Ok(RowsText::new(kind, plant, turns)),
        Err(fault) => Err(fault.after(1 + line_count(&rest[..length]) as u32).into()),
    }
}

/// The plant whose text stands after the first line.
fn take_plant(alloc: Global, bytes: &[u8]) -> Result<Front, TextFault>
    requires { length bytes.now < 2 ^ 30 }
    ensures read { IfOk result (λ f. IsFront bytes.now f.plant f.length × IsWithinLimits f.plant) }
    ensures refused { IfErr result (λ fault. IsPlantRefused bytes.now fault) }
{
    read_front(alloc, bytes).map_err(after_first_line)
}

/// The fault of a text whose plant has this fault.
fn after_first_line(fault: PlantFault) -> TextFault
    requires { (line : ℕ) → fault ≡ PlantFault.Malformed line → line + 1 < 2 ^ 32 }
    ensures { result ≡ fault_of_front fault }
{
    match fault {
        PlantFault::Malformed { line } => TextFault::Malformed { line: line + 1 },
        PlantFault::Limit { what } => TextFault::Limit { what },
        PlantFault::Memory => TextFault::Memory,
    }
}
