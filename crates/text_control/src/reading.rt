//! Reads a text of any kind.

ghost use Rattle.std.specs.Prelude.{◌≢◌, IfOk, IfErr};
ghost use Rattle.text_control.specs.declared.control_fault.ControlFault.TheVariants.{Memory};
ghost use Rattle.text_control.specs.Texts.{IsReadFrom, IsNoTextFor};

use crate::control_fault::ControlFault;
use crate::packed_text::PackedText;
use base::limits::TABLE_LIMIT;
use controller_table::{read_after, take_kind};
use std::alloc::Global;

/// Reads the table, the stay text or the patrol text that the bytes are, or answers why they are none: why they aren't the
/// text that they begin as, which is a table where they begin as none.
pub fn read_text(alloc: Global, bytes: &[u8]) -> Result<PackedText, ControlFault>
    ensures read { IfOk result (IsReadFrom bytes.now) }
    ensures refused { IfErr result (λ fault. fault ≢ Memory → IsNoTextFor bytes.now fault) }
{
    let Some((kind, rest)) = take_kind(bytes) else {
        if bytes.len() > TABLE_LIMIT {
            return Err(ControlFault::Limit);
        }
        return Err(ControlFault::Malformed { line: 1 });
    };
    if bytes.len() > kind.most_bytes() {
        return Err(ControlFault::Limit);
    }
    let text = read_after(alloc, kind, rest)?;
    Ok(PackedText::of(alloc, text)?)
}
