//! Pieces of texts.

ghost use Rattle.std.specs.Prelude.{◌≡◌, ◌++◌, OnOk};
ghost use Rattle.std.specs.Fmt.{decimal};

use itoa::Buffer;
use std::alloc::AllocError;

/// Appends a piece and a number.
pub fn push_part(text: &mut Vec<u8>, piece: &[u8], number: u32) -> Result<(), AllocError>
    ensures { OnOk result (text.new.items ≡ text.old.items ++ piece.now ++ decimal number) }
{
    let mut buffer = Buffer::new();
    text.extend_from_slice(piece)?;
    text.extend_from_slice(buffer.format(number).as_bytes())
}
