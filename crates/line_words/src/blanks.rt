//! The words of a line, which blanks set apart.

ghost use Rattle.std.specs.Prelude.{◌≡◌, ◌<◌, ◌≤◌, Some, [], ◌∷◌, length, position, not, IfSome};
ghost use Rattle.std.specs.List.{position_or_len};
ghost use Rattle.std.specs.Option.{IfNone};
ghost use Rattle.line_words.specs.Words.{is_blank, words_of, is_skipped};

/// The first word and the bytes after it: None where the line has no more words.
pub fn next_word(bytes: &[u8]) -> Option<(&[u8], &[u8])>
    ensures word { IfSome result (λ r. words_of bytes.now ≡ r.0.now ∷ words_of r.1.now) }
    ensures some_byte { IfSome result (λ r. 0 < length r.0.now) }
    ensures shorter { IfSome result (λ r. length r.1.now < length bytes.now) }
    ensures ended { IfNone result (words_of bytes.now ≡ []) }
{
    let start = first_byte_of_word(bytes)?;
    let word = &bytes[start..];
    Some(word.split_at(word_end(word)))
}

pub fn first_byte_of_word(bytes: &[u8]) -> Option<usize>
    ensures position { result ≡ position (λ b. not (is_blank b)) bytes.now }
    ensures within { IfSome result (λ n. n < length bytes.now) }
{
    bytes.iter().position(|b| !is_blank(*b))
}

fn word_end(bytes: &[u8]) -> usize
    ensures end { result ≡ position_or_len is_blank bytes.now }
    ensures within { result ≤ length bytes.now }
{
    first_blank(bytes).unwrap_or(bytes.len())
}

fn first_blank(bytes: &[u8]) -> Option<usize>
    ensures { result ≡ position is_blank bytes.now }
{
    bytes.iter().position(|b| is_blank(*b))
}

/// A space, a tab or a carriage return.
pub fn is_blank(b: u8) -> bool
    ensures { result ≡ is_blank b }
{
    b == b' ' || b == b'\t' || b == b'\r'
}

/// Whether a line states nothing: one of blanks, or one whose first word begins with `#`.
pub fn is_skipped(line: &[u8]) -> bool
    ensures { result ≡ is_skipped line.now }
{
    match next_word(line) {
        Some((word, _)) => word.starts_with(b"#"),
        None => true,
    }
}
