// Tokens by what a line asks of them.
ghost use Rattle.std.specs.Prelude.{◌≡◌, Some, None, cond};
ghost use Rattle.lexer.specs.Scans.{seen};
ghost use Rattle.nestformat.specs.Limits.{from_to, positive_within};
ghost use Rattle.nestformat.specs.Due.{natural};
ghost use Rattle.nestlines.specs.Tokens.{is_word, is_bad, is_end, kind_seen, ranged};

use lexer::reader::Token;
use nestformat::kinds::BodyKind;

// Whether the token is this word.
pub(crate) fn word_is(token: Token<'_>, word: &[u8]) -> bool
    ensures { result ≡ is_word word.now (seen token.entry) }
{
    match token {
        Token::Word { bytes, .. } => bytes == word,
        Token::Number { bytes, .. } => bytes == word,
        Token::LineEnd { .. } => false,
    }
}

// Whether the token, in a number's place, is no number.
pub(crate) fn is_no_number(token: Token<'_>) -> bool
    ensures { result ≡ is_bad (seen token.entry) }
{
    matches!(token, Token::Word { .. })
}

pub(crate) fn ends_line(token: Token<'_>) -> bool
    ensures { result ≡ is_end (seen token.entry) }
{
    matches!(token, Token::LineEnd { .. })
}

// The kind of body that the token names.
pub(crate) fn kind_of(token: Token<'_>) -> Option<BodyKind>
    ensures { result ≡ kind_seen (seen token.entry) }
{
    match token {
        Token::Word { bytes, .. } => BodyKind::named(bytes),
        Token::Number { bytes, .. } => BodyKind::named(bytes),
        Token::LineEnd { .. } => None,
    }
}

// The number, where it is one from `low` to `high`.
pub(crate) fn within(number: i32, low: u32, high: u32) -> Option<u32>
    ensures { result ≡ cond (positive_within (from_to low high) number) (Some (natural number)) None }
{
    let Ok(number) = u32::try_from(number) else {
        return None;
    };
    if low <= number && number <= high {
        Some(number)
    } else {
        None
    }
}

// The number of the token, where it is one from `low` to `high`.
pub(crate) fn number_within(token: Token<'_>, low: u32, high: u32) -> Option<u32>
    ensures { result ≡ ranged (from_to low high) (seen token.entry) }
{
    match token {
        Token::Number { value, .. } => within(value, low, high),
        Token::Word { .. } | Token::LineEnd { .. } => None,
    }
}
