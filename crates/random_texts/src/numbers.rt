// Tokens as numbers.
use std::alloc::{AllocError, Global};

const LARGEST: i32 = 1_000_000;

fn magnitude(digits: &[u8]) -> Option<i32> {
    if digits.is_empty() || digits.starts_with(b"0") {
        return None;
    }
    let mut value: i32 = 0;
    for digit in digits {
        if !digit.is_ascii_digit() {
            return None;
        }
        let units = i32::from(digit.saturating_sub(b'0'));
        value = value.saturating_mul(10).saturating_add(units);
    }
    (value <= LARGEST).then_some(value)
}

// An optional minus and digits: no needless zero, no minus zero, nothing past the largest.
pub fn number(token: &[u8]) -> Option<i32> {
    match token {
        b"0" => Some(0),
        [b'-', digits @ ..] => Some(magnitude(digits)?.saturating_neg()),
        _ => magnitude(token),
    }
}

// Whether so many tokens, some being passed over before them, are numbers, as far as there are so many.
pub fn are_numbers(tokens: &[&[u8]], passed: usize, count: usize) -> bool {
    let mut places = tokens.iter().skip(passed).take(count);
    places.all(|token| number(token).is_some())
}

pub fn numbers(heap: Global, tokens: &[&[u8]]) -> Result<Vec<i32>, AllocError> {
    let found = tokens.iter().filter_map(|token| number(token));
    found.collect(heap)
}
