//! Numbers of at most 18 digits, each in its one spelling.

ghost use Rattle.row_reading.specs.Found.{Finds};
ghost use Rattle.live_script.specs.inside.QuestionWords.{IsNumberAt};

use crate::cuts::take_word;
use line_words::parse_number;

/// The number that stands at the front, and the bytes from the separator after it on.
pub(crate) fn take_number(bytes: &[u8]) -> Option<(i64, &[u8])>
    ensures { Finds (λ r. (r.0, r.1.now)) (IsNumberAt bytes.now) result }
{
    let (word, rest) = take_word(bytes)?;
    let number = parse_number(word)?;
    Some((number, rest))
}
