//! A test of `number_of`.
use mls_lexer::number::{LARGEST, number_of};
use mls_lexer::scan::tokens;
use mls_lexer::token::Kind;
use std::test::Fail;

#[test]
fn reads_numbers(rt: HostRuntime) -> Result<(), Fail> {
    for (text, value) in [
        (b"0".as_slice(), 0),
        (b" 0072".as_slice(), 72),
        (b"9223372036854775807".as_slice(), LARGEST),
    ] {
        let found = tokens(rt.alloc(), text)?;
        assert_eq!(rt; found.len(), 1);
        let token = found[0];
        if token.kind == Kind::Number {
            assert_eq!(rt; number_of(text, &token), value);
        } else {
            assert!(rt; false, "no number in {text:?}");
        }
    }
    Ok(())
}
