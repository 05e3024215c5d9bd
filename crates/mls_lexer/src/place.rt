//! Lines and columns of places.
ghost use Rattle.std.specs.Prelude.{◌≡◌, ◌≤◌, ◌+◌, ◌==◌, not, length, reverse, take_while, count_by};
ghost use Rattle.mls_lexer.specs.Tokens.{line_of, column_of};

/// The line and the column of the byte with the number `at`, both counted from 1; `at` may be the length of the text.
pub fn locate(text: &[u8], at: usize) -> (usize, usize)
    requires { at ≤ length text.now }
    ensures line { result.0 ≡ line_of text.now at }
    ensures column { result.1 ≡ column_of text.now at }
{
    let before = &text[..at];
    let newlines = before.iter().filter(|byte| **byte == b'\n').count();
    (1 + newlines, 1 + bytes_of_line(before))
}

// How many bytes stand after the last newline, or in all where there is none.
fn bytes_of_line(before: &[u8]) -> usize
    ensures { result ≡ length (take_while (λ byte. not (byte == 10)) (reverse before.now)) }
{
    before
        .iter()
        .rev()
        .take_while(|byte| **byte != b'\n')
        .count()
}
