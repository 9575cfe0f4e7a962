// Numbers with an optional minus, as they are written: no needless zero and no -0.
ghost use Rattle.std.specs.Prelude.{◌≡◌};
ghost use Rattle.lexer.specs.Lines.{tokens};
ghost use Rattle.lexer.specs.Numbers.{magnitude as unsigned, number as signed, all_numbers, digit as digit_of, padded};

use crate::scans::{skip_spaces, until};

// Numbers go up to it, either way.
pub const NUMBER_LIMIT: u32 = 1_000_000;

const DIGIT_LIMIT: usize = 7;

fn digit(byte: u8) -> Option<u8>
    ensures { result ≡ digit_of byte }
{
    match byte {
        b'0'..=b'9' => Some(byte - b'0'),
        _ => None,
    }
}

// Whether the digits begin with a needless zero.
fn is_padded(digits: &[u8]) -> bool
    ensures { result ≡ padded digits.now }
{
    digits.len() > 1 && digits[0] == b'0'
}

// The number that the digits write.
fn magnitude(digits: &[u8]) -> Option<u32>
    ensures { result ≡ unsigned digits.now }
{
    if digits.is_empty() || digits.len() > DIGIT_LIMIT {
        return None;
    }
    if is_padded(digits) {
        return None;
    }
    let mut sum: u32 = 0;
    for byte in digits {
        sum = sum * 10 + u32::from(digit(*byte)?);
    }
    if sum > NUMBER_LIMIT { None } else { Some(sum) }
}

// The number that the token writes, if it is one.
pub fn number(token: &[u8]) -> Option<i32>
    ensures { result ≡ signed token.now }
{
    let Some(digits) = token.strip_prefix(b"-") else {
        return Some(magnitude(token)? as i32);
    };
    match magnitude(digits)? {
        0 => None,
        size => Some(-(size as i32)),
    }
}

// Whether each token of the line is a number.
pub fn are_numbers(line: &[u8]) -> bool
    ensures { result ≡ all_numbers (tokens line.now) }
{
    let mut at = 0;
    loop {
        let start = skip_spaces(line, at);
        let end = until(line, start, b' ');
        if start == end {
            return true;
        }
        if number(&line[start..end]).is_none() {
            return false;
        }
        at = end;
    }
}
