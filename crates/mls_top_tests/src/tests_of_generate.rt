//! Generated modules.
use crate::samples::answered_words;
use std::test::Fail;

#[test]
fn generate_prints_how_long_both_texts_are(rt: HostRuntime) -> Result<(), Fail> {
    for (seed, count, printed) in [
        (
            "1",
            "1",
            "generate: 1 bindings, 51 bytes in, 40 bytes out\n",
        ),
        (
            "1",
            "4",
            "generate: 4 bindings, 182 bytes in, 120 bytes out\n",
        ),
        (
            "0000000001",
            "4",
            "generate: 4 bindings, 182 bytes in, 120 bytes out\n",
        ),
        (
            "0000000001",
            "0000000001",
            "generate: 1 bindings, 51 bytes in, 40 bytes out\n",
        ),
    ] {
        let (said, status, fetches) = answered_words(
            rt.alloc(),
            &["generate", seed, count],
            "",
            1,
        )?;
        assert_eq!(rt; said.as_slice(), printed.as_bytes());
        assert_eq!(rt; status, 0, "{seed} {count}");
        assert_eq!(rt; fetches, 0, "{seed} {count}");
    }
    Ok(())
}

#[test]
fn generate_prints_the_same_line_at_each_run(rt: HostRuntime) -> Result<(), Fail> {
    let words = ["generate", "1", "400"];
    let (first, status, _) = answered_words(rt.alloc(), &words, "", 1)?;
    let (second, again, _) = answered_words(rt.alloc(), &words, "", 1)?;
    assert_eq!(rt; first.as_slice(), second.as_slice());
    assert!(rt; first.starts_with(b"generate: 400 bindings, 19412 bytes in, "));
    assert_eq!(rt; status, 0);
    assert_eq!(rt; again, 0);
    Ok(())
}

#[test]
fn other_numbers_are_no_command(rt: HostRuntime) -> Result<(), Fail> {
    for words in [
        &["generate"].as_slice(),
        &["generate", "1"].as_slice(),
        &["generate", "1", "1", "1"].as_slice(),
        &["Generate", "1", "1"].as_slice(),
        &["generate", "1", "0"].as_slice(),
        &["generate", "1", "10001"].as_slice(),
        &["generate", "2147483648", "1"].as_slice(),
        &["generate", "00000000001", "1"].as_slice(),
        &["generate", "1", "00000000001"].as_slice(),
        &["generate", "-1", "1"].as_slice(),
        &["generate", "1", "-1"].as_slice(),
        &["generate", "+1", "1"].as_slice(),
        &["generate", "", "1"].as_slice(),
        &["generate", "1", "1x"].as_slice(),
        &["infer", "1", "1"].as_slice(),
    ] {
        let (said, status, fetches) = answered_words(rt.alloc(), words, "", 1)?;
        assert_eq!(rt;
            said.as_slice(),
            "usage: mlsub COMMAND OPERANDS\n".as_bytes()
        );
        assert_eq!(rt; status, 8);
        assert_eq!(rt; fetches, 0);
    }
    Ok(())
}
