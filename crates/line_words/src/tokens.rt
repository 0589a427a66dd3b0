//! The tokens of a line: blanks set them apart, and each is as long as it can be.

ghost use Rattle.std.specs.Prelude.{◌≡◌, ◌<◌, ◌≤◌, length, position, not, [], ◌∷◌, IfSome, MatchOption};
ghost use Rattle.std.specs.List.{prefix_len};
ghost use Rattle.line_words.specs.Names.{is_digit};
ghost use Rattle.line_words.specs.Words.{is_blank};
ghost use Rattle.line_words.specs.Tokens.{goes_on};
ghost use Rattle.line_words.specs.LineTokens.{tokens_in};

use crate::blanks::first_byte_of_word;
use crate::names::{is_letter, is_name_byte};

fn is_digit(b: u8) -> bool
    ensures { result ≡ is_digit b }
{
    b.is_ascii_digit()
}

fn goes_on(first: u8, b: u8) -> bool
    ensures { result ≡ goes_on (first ∷ []) b }
{
    (is_letter(first) && is_name_byte(b)) || (is_digit(first) && is_digit(b))
}

fn blanks_before(bytes: &[u8]) -> usize
    ensures blanks { result ≡ prefix_len is_blank bytes.now }
    ensures within { result ≤ length bytes.now }
{
    first_byte_of_word(bytes).unwrap_or(bytes.len())
}

/// Where a token ends, after its first byte.
fn token_end(first: u8, after: &[u8]) -> Option<usize>
    ensures position { result ≡ position (λ b. not (goes_on (first ∷ []) b)) after.now }
    ensures within { IfSome result (λ n. n < length after.now) }
{
    after.iter().position(|b| !goes_on(first, *b))
}

fn more_of_token(first: u8, after: &[u8]) -> usize
    ensures more { result ≡ prefix_len (goes_on (first ∷ [])) after.now }
    ensures within { result ≤ length after.now }
{
    token_end(first, after).unwrap_or(after.len())
}

/// The first token and the bytes after it.
pub fn next_token(bytes: &[u8]) -> Option<(&[u8], &[u8])>
    ensures tokens { MatchOption result (tokens_in bytes.now ≡ []) (λ x. tokens_in bytes.now ≡ x.0.now ∷ tokens_in x.1.now) }
    ensures shorter { IfSome result (λ x. length x.1.now < length bytes.now) }
{
    let (_, rest) = bytes.split_at(blanks_before(bytes));
    let (first, after) = rest.split_first()?;
    let end = 1 + more_of_token(*first, after);
    Some(rest.split_at(end))
}
