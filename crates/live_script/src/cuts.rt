//! The word at the front of some bytes.

ghost use Rattle.std.specs.Prelude.{◌≡◌, ◌<◌, length, position, IfSome};
ghost use Rattle.line_words.specs.Separators.{is_separator};
ghost use Rattle.row_reading.specs.Found.{Finds};
ghost use Rattle.live_script.specs.inside.QuestionWords.{IsWordAt};

/// The bytes up to the first separator, and the bytes from there on.
pub(crate) fn take_word(bytes: &[u8]) -> Option<(&[u8], &[u8])>
    ensures { Finds (λ r. (r.0.now, r.1.now)) (IsWordAt bytes.now) result }
{
    let end = first_separator(bytes)?;
    Some(bytes.split_at(end))
}

fn first_separator(bytes: &[u8]) -> Option<usize>
    ensures position { result ≡ position is_separator bytes.now }
    ensures within { IfSome result (λ n. n < length bytes.now) }
{
    bytes.iter().position(|b| *b == b' ' || *b == b'\n')
}
