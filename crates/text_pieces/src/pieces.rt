ghost use Rattle.std.specs.Prelude.{◌≡◌, ℕ, ◌<◌, ◌≤◌, List, [], ◌++◌, length, take, drop, min};

/// A text that comes in pieces. Seen as the bytes that are still to come.
pub trait Pieces {
    ghost left: { Self → List ℕ };

    /// Copies some of the next bytes, at least one where there is one.
    fn copy_some(&mut self, buf: &mut [u8]) -> usize
        requires { 0 < length buf.old }
        ensures some { result ≡ 0 → left self.old ≡ [] }
        ensures within { result ≤ length (left self.old) }
        ensures bound { result ≤ length buf.old }
        ensures copied { buf.new ≡ take result (left self.old) ++ drop result buf.old }
        ensures rest { left self.new ≡ drop result (left self.old) };

    /// Puts the next bytes into the buffer, as many as there is room for, and answers how many.
    fn next_piece(&mut self, buf: &mut [u8]) -> usize
        requires { 0 < length buf.old }
        ensures count { result ≡ min (length buf.old) (length (left self.old)) }
        ensures piece { take result buf.new ≡ take result (left self.old) }
        ensures rest { left self.new ≡ drop result (left self.old) }
    {
        let mut filled = 0;
        while filled < buf.len() {
            let count = self.copy_some(&mut buf[filled..]);
            if count == 0 {
                break;
            }
            filled += count;
        }
        filled
    }
}
