//! The numbers of command lines.
ghost use Rattle.std.specs.Prelude.{◌≡◌, ◌<◌, ◌≤◌, length, MatchOption, IsTrue};
ghost use Rattle.std.specs.List.{list_all};
ghost use Rattle.mls_lexer.specs.Tokens.{is_digit, digits_value};
ghost use Rattle.mls_top.specs.Numbers.{is_number_word, number_between};

/// The number from `least` to `greatest` that a word of one to ten digits is.
pub fn number_between(word: &[u8], least: u32, greatest: u32) -> Option<u32>
    ensures { result ≡ number_between least greatest word.now }
{
    if !is_number_word(word) {
        return None;
    }
    match value_up_to(word, greatest) {
        Some(value) if value >= least => Some(value),
        _ => None,
    }
}

// The word has one to ten digits.
fn is_number_word(word: &[u8]) -> bool
    ensures { result ≡ is_number_word word.now }
{
    !word.is_empty() && word.len() <= 10 && are_digits(word)
}

// All bytes are digits.
fn are_digits(bytes: &[u8]) -> bool
    ensures { result ≡ list_all is_digit bytes.now }
{
    bytes.iter().all(|byte| byte.is_ascii_digit())
}

// The value of digits, if it is not greater than `greatest`.
fn value_up_to(digits: &[u8], greatest: u32) -> Option<u32>
    requires { IsTrue (list_all is_digit digits.now) }
    ensures { MatchOption result (greatest < digits_value digits.now) (λ value. (value ≡ digits_value digits.now)
        × (value ≤ greatest)) }
{
    let mut value = 0;
    for byte in digits {
        value = 10 * value + u64::from(*byte - b'0');
        if value > u64::from(greatest) {
            return None;
        }
    }
    Some(value as u32)
}
