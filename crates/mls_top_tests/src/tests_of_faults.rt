//! Faults of the text of a module, and its limits.
use crate::samples::inferred;
use std::test::Fail;

// How many bytes the text of a module may have.
const MODULE_LIMIT: usize = 1_048_576;

#[test]
fn answers_the_first_fault_with_its_line(rt: HostRuntime) -> Result<(), Fail> {
    for (text, printed) in [
        (
            "let a = @",
            "main.ml:1:9: fault 1: a byte that begins no token\n",
        ),
        (
            "let n = 9223372036854775808",
            "main.ml:1:9: fault 2: a number above 9223372036854775807\n",
        ),
        ("let a = )", "main.ml:1:9: fault 3: unexpected token\n"),
        (
            "let id = fun x ->",
            "main.ml:1:18: fault 4: the text ends too early\n",
        ),
        ("let a = b", "main.ml:1:9: fault 6: unknown name\n"),
        (
            "let a = 1\nlet a = 2",
            "main.ml:2:5: fault 7: name bound twice\n",
        ),
        (
            "let r = {a = 1, a = 2}",
            "main.ml:1:17: fault 8: label given twice\n",
        ),
        (
            "import k\nimport k",
            "main.ml:2:8: fault 9: module imported twice\n",
        ),
        (
            "let f = 1 2\nlet g = y",
            "main.ml:2:9: fault 6: unknown name\n",
        ),
    ] {
        let (said, code) = inferred(rt.alloc(), text.as_bytes())?;
        assert_eq!(rt; said.as_slice(), printed.as_bytes(), "{text}");
        assert_eq!(rt; code, 3, "{text}");
    }
    Ok(())
}

#[test]
fn answers_each_front_of_a_text(rt: HostRuntime) -> Result<(), Fail> {
    let alloc = rt.alloc();
    let text = b"let id = fun x -> x";
    for n in 0..=19 {
        let want = match n {
            0 => String::new(alloc),
            1 | 2 => String::from_str(alloc, "main.ml:1:1: fault 3: unexpected token\n")?,
            10 | 11 => String::from_str(alloc, "main.ml:1:10: fault 6: unknown name\n")?,
            16 => String::from_str(alloc, "main.ml:1:16: fault 3: unexpected token\n")?,
            19 => String::from_str(alloc, "val id : a -> a\n")?,
            _ => {
                let mut line = String::new(alloc);
                let column = n + 1;
                write!(
                    line,
                    "main.ml:1:{column}: fault 4: the text ends too early\n"
                )?;
                line
            }
        };
        let (said, code) = inferred(alloc, &text[..n])?;
        assert_eq!(rt; said.as_slice(), want.as_bytes(), "{n}");
        assert_eq!(rt; code, if n == 0 || n == 19 { 0 } else { 3 }, "{n}");
    }
    Ok(())
}

#[test]
fn holds_the_nesting(rt: HostRuntime) -> Result<(), Fail> {
    for (count, printed, code) in [
        (199, "val d : int\n", 0),
        (200, "main.ml:1:209: fault 5: nesting above 200\n", 3),
    ] {
        let mut text = String::new(rt.alloc());
        text.push_str("let d = ")?;
        for _ in 0..count {
            text.push_str("(")?;
        }
        text.push_str("1")?;
        for _ in 0..count {
            text.push_str(")")?;
        }
        let (said, status) = inferred(rt.alloc(), text.as_bytes())?;
        assert_eq!(rt; said.as_slice(), printed.as_bytes(), "{count}");
        assert_eq!(rt; status, code, "{count}");
    }
    Ok(())
}

#[test]
fn holds_the_limit(rt: HostRuntime) -> Result<(), Fail> {
    let alloc = rt.alloc();
    for (length, printed, code) in [
        (MODULE_LIMIT, "", 0),
        (MODULE_LIMIT + 1, "main.ml: longer than 1048576 bytes\n", 11),
    ] {
        let text = vec![in alloc; b' '; length]?;
        let (said, status) = inferred(alloc, text.as_slice())?;
        assert_eq!(rt; said.as_slice(), printed.as_bytes(), "{length}");
        assert_eq!(rt; status, code, "{length}");
    }
    Ok(())
}
