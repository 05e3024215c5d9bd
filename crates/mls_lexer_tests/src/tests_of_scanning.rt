//! Tests of `tokens`.
use mls_lexer::scan::tokens;
use mls_lexer::token::Token;
use std::alloc::{AllocError, Global};
use std::test::Fail;

// The tokens of a text with their places, or its fault.
fn shown(alloc: Global, text: &[u8]) -> Result<String, AllocError> {
    let mut line = String::new(alloc);
    match tokens(alloc, text) {
        Ok(found) => {
            for token in &found {
                let Token { kind, start, end } = *token;
                write!(line, "{kind:?} {start}..{end} ")?;
            }
        }
        Err(fault) => write!(line, "{fault:?}")?,
    }
    Ok(line)
}

#[test]
fn takes_the_longest_tokens(rt: HostRuntime) -> Result<(), Fail> {
    let cases: [(&[u8], &str); 15] = [
        (b"x==1", "Name 0..1 DoubleEquals 1..3 Number 3..4 "),
        (b"1a", "Number 0..1 Name 1..2 "),
        (b"a_B9-> ->", "Name 0..4 Arrow 4..6 Arrow 7..9 "),
        (b"===", "DoubleEquals 0..2 Equals 2..3 "),
        (b"-->", "Minus 0..1 Arrow 1..3 "),
        (b"lets let_ let0", "Name 0..4 Name 5..9 Name 10..14 "),
        (
            b"let\tx\r\n=1",
            "WordLet 0..3 Name 4..5 Equals 7..8 Number 8..9 ",
        ),
        (b"", ""),
        (b" \r\n\t", ""),
        (b"a # \xff b\r c\nd", "Name 0..1 Name 11..12 "),
        (b"a# to the end", "Name 0..1 "),
        (b"#", ""),
        (b"aA_", "Name 0..3 "),
        (b"9223372036854775807", "Number 0..19 "),
        (b"0009223372036854775807", "Number 0..22 "),
    ];
    for (text, want) in cases {
        let line = shown(rt.alloc(), text)?;
        assert_eq!(rt; line.as_str(), want);
    }
    Ok(())
}

#[test]
fn tells_the_first_fault(rt: HostRuntime) -> Result<(), Fail> {
    let cases: [(&[u8], &str); 9] = [
        (b"a#\n#\n?", "BadByte(5)"),
        (b"\x00", "BadByte(0)"),
        (b"a\x7f", "BadByte(1)"),
        (b"a \x80", "BadByte(2)"),
        (b"\xff", "BadByte(0)"),
        (b"> $", "BadByte(0)"),
        (b"a A", "BadByte(2)"),
        (b"a 9223372036854775808 $", "BigNumber(2)"),
        (b"18446744073709551616 ", "BigNumber(0)"),
    ];
    for (text, want) in cases {
        let line = shown(rt.alloc(), text)?;
        assert_eq!(rt; line.as_str(), want);
    }
    Ok(())
}

#[test]
fn knows_each_word_and_symbol(rt: HostRuntime) -> Result<(), Fail> {
    let text =
        b"and bool bot else false format fun if import in int let rec then top true type val = == -> { } ( ) , . : + - * < | &";
    let want =
        "WordAnd WordBool WordBot WordElse WordFalse WordFormat WordFun WordIf WordImport WordIn WordInt WordLet WordRec WordThen WordTop WordTrue WordType WordVal Equals DoubleEquals Arrow BraceLeft BraceRight ParenLeft ParenRight Comma Dot Colon Plus Minus Star Less Bar Amp ";
    let mut kinds = String::new(rt.alloc());
    for token in &tokens(rt.alloc(), text)? {
        let kind = token.kind;
        write!(kinds, "{kind:?} ")?;
    }
    assert_eq!(rt; kinds.as_str(), want);
    Ok(())
}
