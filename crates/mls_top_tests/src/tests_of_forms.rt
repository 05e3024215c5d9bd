//! Each form of expressions, alone and inside each.
use crate::samples::inferred;
use crate::tests_of_deriving::text_is_derived;
use mls_base::memory::Memory;
use std::alloc::Global;
use std::test::Fail;

// Expressions, one of each form.
const FORMS: [&str; 9] = [
    "fun x -> x",
    "(fun x -> x) 1",
    "{a = 1, b = true}",
    "{a = 1}.a",
    "if true then 1 else false",
    "let k = fun x -> x in k k",
    "rec f -> fun x -> f x",
    "1 + 2",
    "{}",
];

// What may stand around an expression, by the forms.
const AROUND: [(&str, &str); 10] = [
    ("fun x -> (", ")"),
    ("(fun y -> y) (", ")"),
    ("{l = (", ")}"),
    ("{l = (", ")}.l"),
    ("if true then (", ") else 1"),
    ("if false then 1 else (", ")"),
    ("let z = (", ") in z"),
    ("let z = 1 in (", ")"),
    ("let u = (", ") in 1"),
    ("rec g -> (", ")"),
];

// The text of one binding, with these parts one after another.
fn binding_of(alloc: Global, parts: &[&str]) -> Result<String, Memory> {
    let mut text = String::new(alloc);
    text.push_str("let a = ")?;
    for part in parts {
        text.push_str(part)?;
    }
    Ok(text)
}

#[test]
fn infers_each_form_alone_and_inside_each(rt: HostRuntime) -> Result<(), Fail> {
    let alloc = rt.alloc();
    for form in FORMS {
        let alone = binding_of(alloc, &[form])?;
        let (_, code) = inferred(alloc, alone.as_bytes())?;
        assert_eq!(rt; code, 0, "{form}");
        for (front, back) in AROUND {
            let text = binding_of(alloc, &[front, form, back])?;
            let (_, code) = inferred(alloc, text.as_bytes())?;
            assert_eq!(rt; code, 0, "{front}{form}{back}");
        }
    }
    Ok(())
}

#[test]
fn derives_each_form_alone_and_inside_each(rt: HostRuntime) -> Result<(), Fail> {
    let alloc = rt.alloc();
    for form in FORMS {
        let alone = binding_of(alloc, &[form])?;
        text_is_derived(&rt, alloc, alone.as_str())?;
        for (front, back) in AROUND {
            let text = binding_of(alloc, &[front, form, back])?;
            text_is_derived(&rt, alloc, text.as_str())?;
        }
    }
    Ok(())
}

#[test]
fn tells_the_first_expression_without_a_scheme_inside_each_form(
    rt: HostRuntime,
) -> Result<(), Fail> {
    let alloc = rt.alloc();
    for (front, back) in AROUND {
        let text = binding_of(alloc, &[front, "(1 2) (3 4)", back])?;
        let column = front.len().saturating_add(10);
        let mut want = String::new(alloc);
        write!(
            want,
            "main.ml:1:{column}: no scheme for a: int where a function is expected\n"
        )?;
        let (said, code) = inferred(alloc, text.as_bytes())?;
        assert_eq!(rt; said.as_slice(), want.as_bytes(), "{front}{back}");
        assert_eq!(rt; code, 1, "{front}{back}");
    }
    Ok(())
}
