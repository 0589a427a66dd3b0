//! Which words are names.

ghost use Rattle.std.specs.Prelude.{◌≡◌, ◌<◌, [], slice_index};
ghost use Rattle.std.specs.List.{list_all};
ghost use Rattle.line_words.specs.Names.{is_name, is_reserved, is_name_byte, is_letter};

use base::limits::NAME_LIMIT;

pub fn is_letter(b: u8) -> bool
    ensures { result ≡ is_letter b }
{
    b.is_ascii_alphabetic()
}

pub fn is_name_byte(b: u8) -> bool
    ensures { result ≡ is_name_byte b }
{
    b.is_ascii_alphanumeric() || b == b'_'
}

fn is_reserved(word: &[u8]) -> bool
    ensures { result ≡ is_reserved word.now }
{
    matches!(word, b"min" | b"max" | b"abs" | b"lut")
}

fn begins_with_letter(word: &[u8]) -> bool
    ensures { result ≡ is_letter (slice_index word.now 0) }
{
    match word {
        [first, ..] => is_letter(*first),
        [] => false,
    }
}

fn has_name_bytes(word: &[u8]) -> bool
    ensures { result ≡ list_all is_name_byte word.now }
{
    word.iter().all(|b| is_name_byte(*b))
}

/// Whether a word may be a name.
pub fn is_name(word: &[u8]) -> bool
    ensures { result ≡ is_name word.now }
{
    begins_with_letter(word)
        && has_name_bytes(word)
        && word.len() <= NAME_LIMIT
        && !is_reserved(word)
}
