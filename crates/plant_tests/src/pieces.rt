//! Tests of `text_pieces`.

use text_pieces::{Pieces, copy_prefix};

/// A text of which at most three bytes are copied at once.
#[derive(Drop)]
struct Threes<'a>(&'a [u8]);

impl Pieces for Threes<'_> {
    ghost left = { λ t. t.0.now };

    fn copy_some(&mut self, buf: &mut [u8]) -> usize {
        let some = self.0.len().min(3);
        let count = copy_prefix(&self.0[..some], buf);
        self.0 = &self.0[count..];
        count
    }
}

/// Eleven bytes come as eight, three and none, and what lies after a piece stays.
fn comes_in_pieces(text: &mut impl Pieces) -> bool {
    let mut buf = *b"????????";
    text.next_piece(&mut buf) == 8
        && buf == *b"eleven m"
        && text.next_piece(&mut buf) == 3
        && buf == *b"oreven m"
        && text.next_piece(&mut buf) == 0
        && buf == *b"oreven m"
}

#[test]
fn a_piece_is_filled_by_several_copies(rt: HostRuntime) {
    assert!(rt; comes_in_pieces(&mut Threes(b"eleven more")));
}

fn copies_two_and_then_four() -> bool {
    let mut buf = *b"????";
    copy_prefix(b"ab", &mut buf) == 2
        && buf == *b"ab??"
        && copy_prefix(b"cdefg", &mut buf) == 4
        && buf == *b"cdef"
}

#[test]
fn as_much_is_copied_as_fits(rt: HostRuntime) {
    assert!(rt; copies_two_and_then_four());
}
