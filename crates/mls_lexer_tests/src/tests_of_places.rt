//! A test of `locate`.
use mls_lexer::place::locate;

#[test]
fn counts_lines_and_columns(rt: HostRuntime) {
    let text = b"a\nbc\n\n";
    for (at, place) in [
        (0, (1, 1)),
        (1, (1, 2)),
        (2, (2, 1)),
        (3, (2, 2)),
        (4, (2, 3)),
        (5, (3, 1)),
        (6, (4, 1)),
    ] {
        assert_eq!(rt; locate(text, at), place, "at {at}");
    }
    assert_eq!(rt; locate(b"", 0), (1, 1));
}
