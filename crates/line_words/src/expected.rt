//! Words that have to stand next: a name, a number, a fixed word, the last one, or none.

ghost use Rattle.std.specs.Prelude.{◌≡◌, ◌<◌, Some, [], ◌∷◌};
ghost use Rattle.line_words.specs.Names.{is_name};
ghost use Rattle.line_words.specs.Words.{words_of, IsSpellingOf};
ghost use Rattle.line_words.specs.WordReaders.{FindsInPlace, StartsWithName, StartsWithNumber};

use crate::blanks::next_word;
use crate::line_fault::LineFault;
use crate::names::is_name;
use crate::numbers::parse_number;

/// The next word, which has to be a name.
pub fn take_name(bytes: &[u8]) -> Result<(&[u8], &[u8]), LineFault>
    ensures { FindsInPlace (λ r. (r.0.now, words_of r.1.now)) (StartsWithName (words_of bytes.now)) result }
{
    match next_word(bytes) {
        Some((word, rest)) if is_name(word) => Ok((word, rest)),
        _ => Err(LineFault::Malformed),
    }
}

/// The next word, which has to be a number.
pub fn take_number(bytes: &[u8]) -> Result<(i128, &[u8]), LineFault>
    ensures { FindsInPlace (λ r. (r.0, words_of r.1.now)) (StartsWithNumber (words_of bytes.now)) result }
{
    match next_word(bytes) {
        Some((word, rest)) => Ok((expect_number(word)?, rest)),
        None => Err(LineFault::Malformed),
    }
}

/// The number that a word has to spell.
pub fn expect_number(word: &[u8]) -> Result<i128, LineFault>
    ensures { FindsInPlace (λ z. z) (λ z. IsSpellingOf z word.now) result }
{
    match parse_number(word) {
        Some(z) => Ok(i128::from(z)),
        None => Err(LineFault::Malformed),
    }
}

/// What stands after the next word, which has to be this one.
pub fn expect_word<'a>(bytes: &'a [u8], text: &[u8]) -> Result<&'a [u8], LineFault>
    ensures { FindsInPlace (λ rest. words_of rest.now) (λ words. words_of bytes.now ≡ text.now ∷ words) result }
{
    match next_word(bytes) {
        Some((word, rest)) if word == text => Ok(rest),
        _ => Err(LineFault::Malformed),
    }
}

/// The next word, after which no more may follow.
pub fn only_word(bytes: &[u8]) -> Result<&[u8], LineFault>
    ensures { FindsInPlace (λ word. word.now) (λ word. words_of bytes.now ≡ word ∷ []) result }
{
    let Some((word, rest)) = next_word(bytes) else {
        return Err(LineFault::Malformed);
    };
    expect_end(rest)?;
    Ok(word)
}

/// No more words may follow.
pub fn expect_end(bytes: &[u8]) -> Result<(), LineFault>
    ensures { FindsInPlace (λ _. tt) (λ (_ : Unit {0}). words_of bytes.now ≡ []) result }
{
    match next_word(bytes) {
        Some(_) => Err(LineFault::Malformed),
        None => Ok(()),
    }
}
