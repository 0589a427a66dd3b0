ghost use Rattle.std.specs.Prelude.{◌≡◌, ◌≢◌, IfOk, IfErr};
ghost use Rattle.controller_table.specs.declared.table_fault.TableFault.TheVariants.{Memory};
ghost use Rattle.temporal_texts.specs.StayText.{IsStayText};
ghost use Rattle.temporal_texts.specs.StayRefusals.{IsStayRefusedFor};

use crate::stay_table::StayTable;
use controller_table::{TableFault, TextKind, read_kind};
use std::alloc::Global;

/// Reads the stay text that the bytes are, or answers why they are none.
pub fn read_stay(alloc: Global, bytes: &[u8]) -> Result<StayTable, TableFault>
    ensures read { IfOk result (λ t. IsStayText bytes.now t.plant t.rows) }
    ensures refused { IfErr result (λ fault. fault ≢ Memory → IsStayRefusedFor bytes.now fault) }
{
    match read_kind(alloc, TextKind::Stay, bytes) {
        Ok(text) => Ok(StayTable::of(text)),
        Err(fault) => Err(fault.without_turns()),
    }
}
