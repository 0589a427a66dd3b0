//! A text on the heap.

ghost use Rattle.std.specs.Prelude.{◌≡◌, ◌≢◌, IfOk, IfErr};
ghost use Rattle.text_control.specs.declared.control_fault.ControlFault.TheVariants.{Memory};
ghost use Rattle.text_control.specs.Texts.{IsReadFrom, IsNoTextFor};
ghost use Rattle.text_control.specs.Calls.{fault_number, fault_line};

use std::alloc::Global;
use text_control::statuses::{LIMIT, MALFORMED, NO_MEMORY};
use text_control::{ControlFault, PackedText, read_text};

/// The text that the bytes are, on the heap.
pub(crate) fn boxed_text(
    alloc: Global,
    bytes: &[u8],
) -> Result<Box<PackedText, Global>, ControlFault>
    ensures read { IfOk result (λ b. IsReadFrom bytes.now b.value) }
    ensures refused { IfErr result (λ fault. fault ≢ Memory → IsNoTextFor bytes.now fault) }
{
    let text = read_text(alloc, bytes)?;
    match Box::new(alloc, text) {
        Ok(boxed) => Ok(boxed),
        Err(_) => Err(ControlFault::Memory),
    }
}

/// The number of a fault for C.
pub(crate) fn fault_status(fault: ControlFault) -> i32
    ensures { result ≡ fault_number fault }
{
    match fault {
        ControlFault::Malformed { .. } => MALFORMED,
        ControlFault::Limit => LIMIT,
        ControlFault::Memory => NO_MEMORY,
    }
}

/// The line of a fault, or 0.
pub(crate) fn fault_at(fault: ControlFault) -> u32
    ensures { result ≡ fault_line fault }
{
    match fault {
        ControlFault::Malformed { line } => line,
        ControlFault::Limit | ControlFault::Memory => 0,
    }
}
