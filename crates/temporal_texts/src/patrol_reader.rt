ghost use Rattle.std.specs.Prelude.{◌≡◌, ◌≢◌, IfOk, IfErr};
ghost use Rattle.controller_table.specs.declared.text_fault.TextFault.TheVariants.{Memory};
ghost use Rattle.temporal_texts.specs.PatrolText.{IsPatrolText};
ghost use Rattle.temporal_texts.specs.PatrolRefusals.{IsPatrolRefusedFor};

use crate::patrol_table::PatrolTable;
use controller_table::{TextFault, TextKind, read_kind};
use std::alloc::Global;

/// Reads the patrol text that the bytes are, or answers why they are none.
pub fn read_patrol(alloc: Global, bytes: &[u8]) -> Result<PatrolTable, TextFault>
    ensures read { IfOk result (λ t. IsPatrolText bytes.now t.plant t.rows) }
    ensures refused { IfErr result (λ fault. fault ≢ Memory → IsPatrolRefusedFor bytes.now fault) }
{
    Ok(PatrolTable::of(read_kind(alloc, TextKind::Patrol, bytes)?))
}
