ghost use Rattle.std.specs.Prelude.{◌≡◌, ◌++◌};
ghost use Rattle.row_runs.specs.RunText.{end_line};

use std::marker::Model;
use text_pieces::{Pieces, copy_prefix};

/// The last line.
const END: &[u8] = b"end\n";

/// A text that has a header in memory, a body that comes in pieces, and the last line. Seen as the bytes that are still to come.
#[derive(Drop)]
pub struct FramedText<T: Pieces + Drop> {
    /// The header, and how many of its bytes are written.
    header: Vec<u8>,
    at: usize,
    body: T,
    /// How many bytes of the last line are written.
    end_at: usize,
}

impl<T: Pieces + Drop> Model for FramedText<T> {
    ghost use Rattle.std.specs.Prelude.{List, ℕ, ◌++◌, drop, ◌≤◌, length};
    ghost use Rattle.row_runs.specs.RunText.{end_line};

    ghost Value = { List ℕ };

    ghost view = { λ t. drop t.at t.header.items ++ (T.left t.body ++ drop t.end_at end_line) };

    ghost invariant = { λ t. (t.at ≤ length t.header.items) × (t.end_at ≤ length end_line) };
}

impl<T: Pieces + Drop> FramedText<T> {
    /// The whole text.
    pub fn new(header: Vec<u8>, body: T) -> FramedText<T>
        ensures { result ≡ header.items ++ (T.left body ++ end_line) }
    {
        FramedText {
            header,
            at: 0,
            body,
            end_at: 0,
        }
    }
}

impl<T: Pieces + Drop> Pieces for FramedText<T> {
    ghost left = { λ t. t };

    fn copy_some(&mut self, buf: &mut [u8]) -> usize {
        if self.at < self.header.len() {
            let count = copy_prefix(&self.header[self.at..], buf);
            self.at += count;
            return count;
        }
        let count = self.body.copy_some(buf);
        if count > 0 {
            return count;
        }
        let count = copy_prefix(&END[self.end_at..], buf);
        self.end_at += count;
        count
    }
}
