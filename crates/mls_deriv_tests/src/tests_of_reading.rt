//! The texts of derivations read, and the first bad lines of others.
use mls_base::memory::Memory;
use mls_deriv::fault::DerivFault;
use mls_deriv::print::print_derivation;
use mls_deriv::printable::{are_spelled, has_text};
use mls_deriv::read::read_derivation;
use std::alloc::Global;
use std::test::Fail;

// The derivation of `fun x -> x` at `a -> a`.
const IDENTITY: &str =
    "derivation 1\nval id : a -> a\nnode fn 1 2\nnode var 0\nnode var 0\nnode fn 1 1\nstep 0 var env 0 1 type 1\nstep 1 fun 0 env type 3\nstep 1 sub 1 env type 0\npair lr 3 0\npair rl 1 1\npair lr 1 2\nend\n";

// The text with another line in place of that of this number, which is left out if the other one is empty.
fn changed(alloc: Global, number: usize, other: &[u8]) -> Result<Vec<u8>, Memory> {
    let mut text = Vec::new(alloc);
    let mut at: usize = 0;
    for line in IDENTITY.split('\n') {
        at = at.saturating_add(1);
        let line = if at == number { other } else { line.as_bytes() };
        if !line.is_empty() {
            text.extend_from_slice(line)?;
            text.extend_from_slice(b"\n")?;
        }
    }
    Ok(text)
}

// The text up to the end of the line before this number, and then other lines.
fn behind(alloc: Global, number: usize, others: &[u8]) -> Result<Vec<u8>, Memory> {
    let mut text = Vec::new(alloc);
    let mut at: usize = 0;
    for line in IDENTITY.split('\n') {
        at = at.saturating_add(1);
        if at < number {
            text.extend_from_slice(line.as_bytes())?;
            text.extend_from_slice(b"\n")?;
        }
    }
    text.extend_from_slice(others)?;
    Ok(text)
}

// The first bad line, or 0 where the text is that of the derivation that is read.
fn bad_line(alloc: Global, text: &[u8]) -> Result<usize, Fail> {
    match read_derivation(alloc, text) {
        Err(DerivFault::BadLine(n)) => Ok(n),
        Err(DerivFault::Memory) => Err(Memory.into()),
        Ok(derivation) => {
            let printed = print_derivation(alloc, &derivation)?;
            if printed.as_slice() == text {
                Ok(0)
            } else {
                Ok(usize::MAX)
            }
        }
    }
}

#[test]
fn reads_the_identity(rt: HostRuntime) -> Result<(), Fail> {
    let alloc = rt.alloc();
    for (text, bad) in [
        (IDENTITY.as_bytes(), 0),
        (b"derivation 1\n".as_slice(), 0),
        (b"".as_slice(), 1),
        (b"derivation 1".as_slice(), 1),
        (b"derivation 2\n".as_slice(), 1),
        (b"derivation 1\nnode bot\n".as_slice(), 2),
    ] {
        assert_eq!(rt; bad_line(alloc, text)?, bad, "{text:?}");
    }
    assert_eq!(rt; DerivFault::BadLine(3).number(), 19);
    assert_eq!(rt; DerivFault::Memory.number(), 0);
    assert_eq!(rt;
        format!(in alloc; "{}", DerivFault::BadLine(3))?.as_str(),
        "bad line"
    );
    Ok(())
}

// Each line of the text forged in turn.
#[test]
fn names_forged_lines(rt: HostRuntime) -> Result<(), Fail> {
    let alloc = rt.alloc();
    for (number, other, bad) in [
        (13, b"".as_slice(), 13),
        (6, b"node join 3 0".as_slice(), 6),
        (8, b"step 1 fun 1 env type 3".as_slice(), 8),
        (2, b"val id : a -> b".as_slice(), 5),
        (2, b"val id : a ->".as_slice(), 2),
        (2, b"val let : a -> a".as_slice(), 2),
        (5, b"".as_slice(), 5),
        (7, b"step 0 var env 0 4 type 1".as_slice(), 7),
        (7, b"step 0 var env 0 1 type 4".as_slice(), 7),
        (10, b"pair lr 4 0".as_slice(), 10),
        (10, b"pair lp 3 0".as_slice(), 10),
        (9, b"put 0 0".as_slice(), 9),
        (13, b"node bot".as_slice(), 13),
        (6, b"node".as_slice(), 6),
    ] {
        let text = changed(alloc, number, other)?;
        assert_eq!(rt; bad_line(alloc, text.as_slice())?, bad, "{number}");
    }
    Ok(())
}

// What a text may have in place of its lines from one on.
#[test]
fn reads_other_ends(rt: HostRuntime) -> Result<(), Fail> {
    let alloc = rt.alloc();
    for (number, others, bad) in [
        (7, b"end\n".as_slice(), 0),
        (7, b"end".as_slice(), 7),
        (7, b"".as_slice(), 7),
        (7, b"node rcd\nend\n".as_slice(), 0),
        (
            7,
            b"node rcd a 5 b 6\nnode bot\nnode top\nend\n".as_slice(),
            0,
        ),
        (7, b"node rcd a 5 b 6\nnode bot\nend\n".as_slice(), 7),
        (7, b"node rcd b 0 a 0\nend\n".as_slice(), 7),
        (7, b"node rcd a 0 b\nend\n".as_slice(), 7),
        (7, b"node fn 5 5\nnode int\nend\n".as_slice(), 0),
        (7, b"node fn 6 5\nnode int\nend\n".as_slice(), 7),
        (7, b"node join 3 3\nnode meet 4 3\nend\n".as_slice(), 0),
        (7, b"node join 3 4\nend\n".as_slice(), 7),
        (7, b"end\nval id : int\nnode int\nend\n".as_slice(), 0),
        (7, b"end\nval id : int\nend\n".as_slice(), 9),
        (7, b"end\n\n".as_slice(), 8),
    ] {
        let text = behind(alloc, number, others)?;
        assert_eq!(rt; bad_line(alloc, text.as_slice())?, bad, "{number}");
    }
    Ok(())
}

// How numbers and words are spelled.
#[test]
fn reads_spellings(rt: HostRuntime) -> Result<(), Fail> {
    let alloc = rt.alloc();
    for (others, bad) in [
        (b"node var 18446744073709551615\nend\n".as_slice(), 0),
        (b"node var 18446744073709551616\nend\n".as_slice(), 7),
        (b"node var 12345678901234567890123\nend\n".as_slice(), 7),
        (b"node var 00\nend\n".as_slice(), 7),
        (b"node var +1\nend\n".as_slice(), 7),
        (b"node  bot\nend\n".as_slice(), 7),
        (b"node bot \nend\n".as_slice(), 7),
        (b"node var\nend\n".as_slice(), 7),
        (b"node var 1 2\nend\n".as_slice(), 7),
        (b"node fin 1 2\nend\n".as_slice(), 7),
        (b"step 0 var env 0 1 1 1 type 1\nend\n".as_slice(), 0),
        (b"step 0 var env 1 1 0 1 type 1\nend\n".as_slice(), 7),
        (b"step 0 var env 0 type 1\nend\n".as_slice(), 7),
        (b"step 0 var 1 env type 1\nend\n".as_slice(), 7),
        (b"step 0 var env type 1 1\nend\n".as_slice(), 7),
    ] {
        let text = behind(alloc, 7, others)?;
        assert_eq!(rt; bad_line(alloc, text.as_slice())?, bad, "{others:?}");
    }
    Ok(())
}

// A step behind one with an environment that is long: what follows its rule, and which line is then bad.
#[test]
fn reads_long_environments(rt: HostRuntime) -> Result<(), Fail> {
    let alloc = rt.alloc();
    let long = "env 0 1 1 1 2 1 3 1 4 1 5 1 6 1 7 1";
    for (behind_env, bad) in [
        (" type 1", 0),
        (" type 3", 0),
        (" 8 1 type 1", 0),
        ("0 type 1", 8),
        (" 8 type 1", 8),
        (" env type 1", 8),
        (" type 01", 8),
        (" type 1 ", 8),
        (" type", 8),
        ("type 1", 8),
        ("", 8),
    ] {
        let others = format!(in alloc;
            "step 0 var {long} type 1\nstep 0 fun 0 {long}{behind_env}\nstep 0 var env 0 1 type 1\nstep 0 var {long} type 1\nend\n"
        )?;
        let text = behind(alloc, 7, others.as_bytes())?;
        assert_eq!(rt; bad_line(alloc, text.as_slice())?, bad, "{behind_env}");
    }
    Ok(())
}

// What lines behind a step ask of those before them.
#[test]
fn reads_what_was_given(rt: HostRuntime) -> Result<(), Fail> {
    let alloc = rt.alloc();
    for (others, bad) in [
        (b"let 0 2\nlet 1 2\nend\n".as_slice(), 0),
        (b"let 0 2\nlet 0 1\nend\n".as_slice(), 11),
        (b"let 0 3\nend\n".as_slice(), 10),
        (b"put 0 1\nput 1 1\npair pp 1 1\nend\n".as_slice(), 0),
        (b"put 0 1\nput 0 2\nend\n".as_slice(), 11),
        (b"put 0 4\nend\n".as_slice(), 10),
        (
            b"put 0 1\nstep 1 sub 2 env type 0\nput 0 1\nend\n".as_slice(),
            0,
        ),
        (b"let 0 2\nput 0 1\nend\n".as_slice(), 11),
        (b"let 0 2\npair lr 0 0\nend\n".as_slice(), 11),
        (b"step 0 lit env type 0\npair lr 0 0\nend\n".as_slice(), 11),
        (b"step 0 use 2 env type 0\nend\n".as_slice(), 0),
        (b"step 0 name 3 env type 0\nend\n".as_slice(), 0),
        (b"step 0 name 4 env type 0\nend\n".as_slice(), 10),
        (
            b"step 0 make 0 1 2 env type 0\nstep 0 make env type 0\nend\n".as_slice(),
            0,
        ),
        (b"step 0 make 0 3 env type 0\nend\n".as_slice(), 10),
        (
            b"step 0 if 0 1 2 env type 0\nstep 0 app 0 3 env type 0\nstep 0 let 0 5 env type 0\n".as_slice(),
            12,
        ),
    ] {
        let text = behind(alloc, 10, others)?;
        assert_eq!(rt; bad_line(alloc, text.as_slice())?, bad, "{others:?}");
    }
    Ok(())
}

// What is read has a text.
#[test]
fn tells_that_the_identity_has_a_text(rt: HostRuntime) -> Result<(), Fail> {
    let alloc = rt.alloc();
    let Ok(derivation) = read_derivation(alloc, IDENTITY.as_bytes()) else {
        return Err(Memory.into());
    };
    assert!(rt; has_text(alloc, &derivation)?);
    assert!(rt; are_spelled(derivation.sections.as_slice()));
    Ok(())
}
