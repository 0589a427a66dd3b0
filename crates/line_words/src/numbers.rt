//! Which words are numbers.

ghost use Rattle.std.specs.Prelude.{◌≡◌, ◌<◌, ℤ, Some, ◌↔◌, IsTrue, MatchOption};
ghost use Rattle.std.specs.Fmt.{signed_decimal};
ghost use Rattle.line_words.specs.Numbers.{IsLiteral};
ghost use Rattle.line_words.specs.Words.{IsSpellingOf};

use base::limits::NUMBER_LIMIT;
use itoa::Buffer;
use std::str;

/// The number that a word spells in its one spelling, with at most 18 digits: None where it spells none.
pub fn parse_number(word: &[u8]) -> Option<i64>
    ensures { MatchOption result ((z : ℤ) → IsSpellingOf z word.now → ⊥) (λ z. IsSpellingOf z word.now) }
{
    match parsed(word) {
        Some(z) if is_literal(z) && is_spelling(z, word) => Some(z),
        _ => None,
    }
}

/// The number of its own spelling. Of other words nothing is said.
fn parsed(word: &[u8]) -> Option<i64>
    ensures { (z : ℤ) → IsLiteral z → word.now ≡ signed_decimal z → result ≡ Some z }
{
    match str::from_utf8(word) {
        Ok(text) => parsed_text(text),
        Err(_) => None,
    }
}

fn parsed_text(text: &str) -> Option<i64>
    ensures { (z : ℤ) → IsLiteral z → text.now ≡ signed_decimal z → result ≡ Some z }
{
    text.parse::<i64>().ok()
}

fn is_literal(z: i64) -> bool
    ensures { IsTrue result ↔ IsLiteral z }
{
    z.unsigned_abs() < NUMBER_LIMIT
}

fn is_spelling(z: i64, word: &[u8]) -> bool
    ensures { IsTrue result ↔ (word.now ≡ signed_decimal z) }
{
    Buffer::new().format(z).as_bytes() == word
}
