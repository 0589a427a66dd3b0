//! Tokens by their kinds.

ghost use Rattle.std.specs.Prelude.{◌≡◌};
ghost use Rattle.expression_reading.specs.TokenKinds.{parse_symbol, parse_function, parse_literal};

use line_words::parse_number;

/// What a token is. A variable is given by its number.
#[derive(Clone, Copy)]
pub enum TokenKind {
    Number(u64),
    Variable(u32),
    Plus,
    Minus,
    Star,
    Slash,
    Open,
    Close,
    Comma,
    Colon,
    Min,
    Max,
    Abs,
    Lut,
    /// What no expression has.
    Other,
}

/// The kind of a token that is a symbol.
pub fn parse_symbol(token: &[u8]) -> Option<TokenKind>
    ensures { result ≡ parse_symbol token.now }
{
    match token {
        b"+" => Some(TokenKind::Plus),
        b"-" => Some(TokenKind::Minus),
        b"*" => Some(TokenKind::Star),
        b"/" => Some(TokenKind::Slash),
        b"(" => Some(TokenKind::Open),
        b")" => Some(TokenKind::Close),
        b"," => Some(TokenKind::Comma),
        b":" => Some(TokenKind::Colon),
        _ => None,
    }
}

/// The kind of a token that is a function's name.
pub fn parse_function(token: &[u8]) -> Option<TokenKind>
    ensures { result ≡ parse_function token.now }
{
    match token {
        b"min" => Some(TokenKind::Min),
        b"max" => Some(TokenKind::Max),
        b"abs" => Some(TokenKind::Abs),
        b"lut" => Some(TokenKind::Lut),
        _ => None,
    }
}

/// The number that a token spells in its one spelling.
pub fn parse_literal(token: &[u8]) -> Option<u64>
    ensures { result ≡ parse_literal token.now }
{
    let z = parse_number(token)?;
    if z < 0 {
        return None;
    }
    Some(z.unsigned_abs())
}
