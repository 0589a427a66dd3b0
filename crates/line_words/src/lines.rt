//! The lines of a text, one after the other.

ghost use Rattle.std.specs.Prelude.{◌≡◌, ◌==◌, ◌<◌, [], ◌∷◌, ◌++◌, length, position, codes, None, IfSome};
ghost use Rattle.std.specs.Option.{IfNone};
ghost use Rattle.line_words.specs.Lines.{lines_of};

/// The first line and the bytes after it: None at the end of the text.
pub fn next_line(bytes: &[u8]) -> Option<(&[u8], &[u8])>
    ensures line { IfSome result (λ r. lines_of bytes.now ≡ r.0.now ∷ lines_of r.1.now) }
    ensures shorter { IfSome result (λ r. length r.1.now < length bytes.now) }
    ensures ended { IfNone result (bytes.now ≡ []) }
{
    if bytes.is_empty() {
        return None;
    }
    match next_full_line(bytes) {
        Some(cut) => Some(cut),
        None => Some(bytes.split_at(bytes.len())),
    }
}

/// The first line and the bytes after its line feed: None where there is no line feed.
pub fn next_full_line(bytes: &[u8]) -> Option<(&[u8], &[u8])>
    ensures line { IfSome result (λ r. lines_of bytes.now ≡ r.0.now ∷ lines_of r.1.now) }
    ensures cut { IfSome result (λ r. bytes.now ≡ r.0.now ++ codes "\n" ++ r.1.now) }
    ensures shorter { IfSome result (λ r. length r.1.now < length bytes.now) }
    ensures endless { IfNone result (None ≡ position (λ b. b == 10) bytes.now) }
{
    let end = line_feed(bytes)?;
    Some((&bytes[..end], &bytes[end + 1..]))
}

fn line_feed(bytes: &[u8]) -> Option<usize>
    ensures position { result ≡ position (λ b. b == 10) bytes.now }
    ensures within { IfSome result (λ n. n < length bytes.now) }
{
    bytes.iter().position(|b| *b == b'\n')
}
