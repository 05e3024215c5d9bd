//! The values of numbers.
ghost use Rattle.std.specs.Prelude.{◌≡◌, ◌<◌, ◌≤◌, MatchOption, IsTrue, slice_range};
ghost use Rattle.std.specs.List.{list_all};
ghost use Rattle.mls_lexer.specs.Tokens.{IsToken, is_digit, digits_value, largest_number};

use crate::token::{Kind, Token};

/// The largest number of a text.
pub const LARGEST: u64 = 9_223_372_036_854_775_807;

/// The value of a number of this text.
pub fn number_of(text: &[u8], token: &Token) -> u64
    requires is_number { token.now.kind ≡ Kind.Number }
    requires of_text { IsToken text.now token.now }
    ensures { result ≡ digits_value (slice_range text.now token.now.start token.now.end) }
{
    value_of(&text[token.start..token.end]).unwrap()
}

// The value of digits, if it is at most 9223372036854775807.
pub(crate) fn value_of(digits: &[u8]) -> Option<u64>
    requires { IsTrue (list_all is_digit digits.now) }
    ensures { MatchOption result (largest_number < digits_value digits.now) (λ value. (value ≡ digits_value digits.now)
        × (value ≤ largest_number)) }
{
    let mut value = 0;
    for byte in digits {
        let digit = u64::from(*byte - b'0');
        if value > (LARGEST - digit) / 10 {
            return None;
        }
        value = 10 * value + digit;
    }
    Some(value)
}
