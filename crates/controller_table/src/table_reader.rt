ghost use Rattle.std.specs.Prelude.{◌≡◌, ◌≢◌, ◌++◌, ℕ, List, IfOk, IfErr};
ghost use Rattle.controller_table.specs.declared.table_fault.TableFault.TheVariants.{Memory};
ghost use Rattle.controller_table.specs.TextKinds.{first_line};
ghost use Rattle.controller_table.specs.Tables.{IsTableIn};
ghost use Rattle.controller_table.specs.TableRefusals.{IsTableRefusedFor};
ghost use Rattle.row_reading.specs.Found.{Finds};

use crate::table::Table;
use crate::table_fault::TableFault;
use crate::text_kind::{TextKind, take_kind};
use crate::text_reader::read_after;
use base::limits::TABLE_LIMIT;
use plant_record::LimitKind;
use row_runs::TableVersion;
use std::alloc::Global;

/// Reads the table that the bytes are, or answers why they are none.
pub fn read_table(alloc: Global, bytes: &[u8]) -> Result<Table, TableFault>
    ensures read { IfOk result (λ t. IsTableIn t.version bytes.now t.plant t.rows) }
    ensures refused { IfErr result (λ fault. fault ≢ Memory → IsTableRefusedFor bytes.now fault) }
{
    if bytes.len() > TABLE_LIMIT {
        let what = LimitKind::TableText;
        return Err(TableFault::Limit { what });
    }
    let Some((version, rest)) = take_version(bytes) else {
        return Err(TableFault::Malformed { line: 1 });
    };
    match read_after(alloc, TextKind::Table(version), rest) {
        Ok(text) => Ok(Table::of(version, text)),
        Err(fault) => Err(fault.without_turns()),
    }
}

/// The version whose first line the bytes begin with, and what stands after it.
fn take_version(bytes: &[u8]) -> Option<(TableVersion, &[u8])>
    ensures { Finds (λ r. (r.0, r.1.now)) (λ (found : TableVersion × List ℕ). bytes.now ≡ first_line (TextKind.Table found.0) ++ found.1) result }
{
    let (kind, rest) = take_kind(bytes)?;
    match kind {
        TextKind::Table(version) => Some((version, rest)),
        TextKind::Stay | TextKind::Patrol => None,
    }
}
