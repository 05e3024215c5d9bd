//! Tests of `parse_module`.
use mls_book::name::Name;
use mls_grammar::module::{ExprNode, Form, Op};
use mls_reader::parse_module;
use std::alloc::{AllocError, Global};
use std::test::Fail;

// Adds a name.
fn show_name(line: &mut String, name: &Name) -> Result<(), AllocError> {
    line.push_str(name.as_str())
}

// How a text writes an operator.
fn sign(op: Op) -> &'static str {
    match op {
        Op::Plus => "+",
        Op::Minus => "-",
        Op::Times => "*",
        Op::Less => "<",
        Op::Equal => "==",
    }
}

// Adds a node: what it is, with the numbers of its children, and its place.
fn show_node(line: &mut String, node: &ExprNode) -> Result<(), AllocError> {
    match &node.form {
        Form::Var(name) => show_name(line, name)?,
        Form::Operator(op) => line.push_str(sign(*op))?,
        Form::Number(value) => write!(line, "{value}")?,
        Form::Truth(value) => write!(line, "{value}")?,
        Form::Fun(name, body) => write!(line, "fun {} {body}", name.as_str())?,
        Form::Apply(function, argument) => write!(line, "apply {function} {argument}")?,
        Form::Make(parts) => {
            line.push_str("{")?;
            for part in parts.as_slice() {
                write!(line, " {}:{}", part.label.as_str(), part.child)?;
            }
            line.push_str(" }")?;
        }
        Form::Project(record, label) => write!(line, "{record}.{}", label.as_str())?,
        Form::If(condition, first, second) => { write!(line, "if {condition} {first} {second}")? }
        Form::Let(name, bound, body) => write!(line, "let {} {bound} {body}", name.as_str())?,
        Form::Rec(name, body) => write!(line, "rec {} {body}", name.as_str())?,
    }
    write!(line, "@{}", node.at)
}

// The imports, the bindings and their nodes of a text with their places, or its fault.
fn shown(alloc: Global, text: &[u8]) -> Result<String, AllocError> {
    let mut line = String::new(alloc);
    match parse_module(alloc, text) {
        Ok(module) => {
            for import in module.imports.as_slice() {
                write!(line, "import {}@{}; ", import.name.as_str(), import.at)?;
            }
            for binding in module.bindings.as_slice() {
                write!(line, "{}@{}:", binding.name.as_str(), binding.at)?;
                for node in binding.expr.nodes.as_slice() {
                    line.push_str(" ")?;
                    show_node(&mut line, node)?;
                }
                line.push_str("; ")?;
            }
        }
        Err(fault) => write!(line, "{fault:?}")?,
    }
    Ok(line)
}

// So many times this text behind one text, and another text behind all.
fn repeated(
    alloc: Global,
    before: &str,
    text: &str,
    count: usize,
    behind: &str,
) -> Result<String, AllocError> {
    let mut line = String::new(alloc);
    line.push_str(before)?;
    for _ in 0..count {
        line.push_str(text)?;
    }
    line.push_str(behind)?;
    Ok(line)
}

#[test]
fn reads_imports_and_bindings(rt: HostRuntime) -> Result<(), Fail> {
    let cases: [(&[u8], &str); 8] = [
        (b"", ""),
        (b"# nothing", ""),
        (b"import k", "import k@7; "),
        (
            b"import k import m let a = 1",
            "import k@7; import m@16; a@22: 1@26; ",
        ),
        (b"let a = 1 let b = 2", "a@4: 1@8; b@14: 2@18; "),
        (
            b"let t = true let f = false",
            "t@4: true@8; f@17: false@21; ",
        ),
        (b"import a let a = 1", "import a@7; a@13: 1@17; "),
        (b"let x = x# x\nlet y = x", "x@4: x@8; y@17: x@21; "),
    ];
    for (text, want) in cases {
        let line = shown(rt.alloc(), text)?;
        assert_eq!(rt; line.as_str(), want);
    }
    Ok(())
}

#[test]
fn reads_names_functions_and_applications(rt: HostRuntime) -> Result<(), Fail> {
    let cases: [(&[u8], &str); 9] = [
        (b"let a = 007", "a@4: 7@8; "),
        (
            b"let n = 9223372036854775807",
            "n@4: 9223372036854775807@8; ",
        ),
        (b"let id = fun x -> x", "id@4: x@18 fun x 0@9; "),
        (
            b"let k = fun x -> (fun y -> (x))",
            "k@4: x@28 fun y 0@18 fun x 1@8; ",
        ),
        (
            b"let a = fun x -> x 1",
            "a@4: x@17 1@19 apply 0 1@17 fun x 2@8; ",
        ),
        (
            b"let a = f x y",
            "a@4: f@8 x@10 apply 0 1@8 y@12 apply 2 3@8; ",
        ),
        (b"let a = 1 2", "a@4: 1@8 2@10 apply 0 1@8; "),
        (b"let a = (1) 2", "a@4: 1@9 2@12 apply 0 1@8; "),
        (
            b"let a = f (x y)",
            "a@4: f@8 x@11 y@13 apply 1 2@11 apply 0 3@8; ",
        ),
    ];
    for (text, want) in cases {
        let line = shown(rt.alloc(), text)?;
        assert_eq!(rt; line.as_str(), want);
    }
    Ok(())
}

#[test]
fn reads_operators(rt: HostRuntime) -> Result<(), Fail> {
    let cases: [(&[u8], &str); 9] = [
        (
            b"let a = 1 + 2",
            "a@4: +@10 1@8 apply 0 1@10 2@12 apply 2 3@10; ",
        ),
        (
            b"let a = 1 + 2 - 3",
            "a@4: -@14 +@10 1@8 apply 1 2@10 2@12 apply 3 4@10 apply 0 5@14 3@16 apply 6 7@14; ",
        ),
        (
            b"let a = 1 + 2 * 3",
            "a@4: +@10 1@8 apply 0 1@10 *@14 2@12 apply 3 4@14 3@16 apply 5 6@14 apply 2 7@10; ",
        ),
        (
            b"let a = 1 * 2 + 3",
            "a@4: +@14 *@10 1@8 apply 1 2@10 2@12 apply 3 4@10 apply 0 5@14 3@16 apply 6 7@14; ",
        ),
        (
            b"let a = (1 + 2) * 3",
            "a@4: *@16 +@11 1@9 apply 1 2@11 2@13 apply 3 4@11 apply 0 5@16 3@18 apply 6 7@16; ",
        ),
        (
            b"let a = 1 < 2",
            "a@4: <@10 1@8 apply 0 1@10 2@12 apply 2 3@10; ",
        ),
        (
            b"let a = 1 == 2 + 3",
            "a@4: ==@10 1@8 apply 0 1@10 +@15 2@13 apply 3 4@15 3@17 apply 5 6@15 apply 2 7@10; ",
        ),
        (
            b"let a = (1 < 2) == t",
            "a@4: ==@16 <@11 1@9 apply 1 2@11 2@13 apply 3 4@11 apply 0 5@16 t@19 apply 6 7@16; ",
        ),
        (
            b"let a = f x + g y",
            "a@4: +@12 f@8 x@10 apply 1 2@8 apply 0 3@12 g@14 y@16 apply 5 6@14 apply 4 7@12; ",
        ),
    ];
    for (text, want) in cases {
        let line = shown(rt.alloc(), text)?;
        assert_eq!(rt; line.as_str(), want);
    }
    Ok(())
}

#[test]
fn reads_records_and_projections(rt: HostRuntime) -> Result<(), Fail> {
    let cases: [(&[u8], &str); 10] = [
        (b"let a = r.l.m", "a@4: r@8 0.l@10 1.m@12; "),
        (b"let a = f r.l", "a@4: f@8 r@10 1.l@12 apply 0 2@8; "),
        (b"let a = (f x).l", "a@4: f@9 x@11 apply 0 1@9 2.l@14; "),
        (
            b"let a = r.f x.y 1",
            "a@4: r@8 0.f@10 x@12 2.y@14 apply 1 3@8 1@16 apply 4 5@8; ",
        ),
        (b"let a = {}", "a@4: { }@8; "),
        (
            b"let a = {x = 1, y = {}}",
            "a@4: 1@13 { }@20 { x:0 y:1 }@8; ",
        ),
        (b"let a = {y = 1, x = 2}", "a@4: 1@13 2@20 { y:0 x:1 }@8; "),
        (b"let a = {x = {x = 1}}", "a@4: 1@18 { x:0 }@13 { x:1 }@8; "),
        (b"let a = {x = 1}.x", "a@4: 1@13 { x:0 }@8 1.x@16; "),
        (
            b"let a = {x = 1 + 2, y = f z}",
            "a@4: +@15 1@13 apply 0 1@15 2@17 apply 2 3@15 f@24 z@26 apply 5 6@24 { x:4 y:7 }@8; ",
        ),
    ];
    for (text, want) in cases {
        let line = shown(rt.alloc(), text)?;
        assert_eq!(rt; line.as_str(), want);
    }
    Ok(())
}

#[test]
fn reads_choices_lets_and_recursions(rt: HostRuntime) -> Result<(), Fail> {
    let cases: [(&[u8], &str); 8] = [
        (b"let a = rec f -> f", "a@4: f@17 rec f 0@8; "),
        (b"let rec f = f", "f@8: f@12 rec f 0@4; "),
        (
            b"let a = if b then 1 else 2",
            "a@4: b@11 1@18 2@25 if 0 1 2@8; ",
        ),
        (
            b"let a = if b then 1 else 2 + 3",
            "a@4: b@11 1@18 +@27 2@25 apply 2 3@27 3@29 apply 4 5@27 if 0 1 6@8; ",
        ),
        (b"let a = let x = 1 in x", "a@4: 1@16 x@21 let x 0 1@8; "),
        (
            b"let a = let rec f = f in f",
            "a@4: f@20 rec f 0@12 f@25 let f 1 2@8; ",
        ),
        (
            b"let a = let x = let y = 1 in y in x",
            "a@4: 1@24 y@29 let y 0 1@16 x@34 let x 2 3@8; ",
        ),
        (
            b"let a = (let x = 1 in x) 2",
            "a@4: 1@17 x@22 let x 0 1@9 2@25 apply 2 3@8; ",
        ),
    ];
    for (text, want) in cases {
        let line = shown(rt.alloc(), text)?;
        assert_eq!(rt; line.as_str(), want);
    }
    Ok(())
}

#[test]
fn answers_the_fault_of_the_tokens(rt: HostRuntime) -> Result<(), Fail> {
    let cases: [(&[u8], &str); 6] = [
        (b"$", "BadByte(0)"),
        (b"let a = @", "BadByte(8)"),
        (b"let n = 9223372036854775808", "BigNumber(8)"),
        (b"let n = 9223372036854775808 $", "BigNumber(8)"),
        (b"let a = ) $", "BadByte(10)"),
        (b"import k import k $", "BadByte(18)"),
    ];
    for (text, want) in cases {
        let line = shown(rt.alloc(), text)?;
        assert_eq!(rt; line.as_str(), want);
    }
    Ok(())
}

#[test]
fn answers_bindings_that_end_too_early(rt: HostRuntime) -> Result<(), Fail> {
    let cases: [(&[u8], &str); 9] = [
        (b"let", "Ended"),
        (b"let a", "Ended"),
        (b"let a =", "Ended"),
        (b"let rec", "Ended"),
        (b"import", "Ended"),
        (b"let a = (", "Ended"),
        (b"let a = (1", "Ended"),
        (b"let a = {", "Ended"),
        (b"let a = {x", "Ended"),
    ];
    for (text, want) in cases {
        let line = shown(rt.alloc(), text)?;
        assert_eq!(rt; line.as_str(), want);
    }
    Ok(())
}

#[test]
fn answers_expressions_that_end_too_early(rt: HostRuntime) -> Result<(), Fail> {
    let cases: [(&[u8], &str); 9] = [
        (b"let a = {x =", "Ended"),
        (b"let a = {x = 1", "Ended"),
        (b"let a = {x = 1,", "Ended"),
        (b"let a = 1 +", "Ended"),
        (b"let a = x.", "Ended"),
        (b"let id = fun x ->", "Ended"),
        (b"let a = if 1 then 2", "Ended"),
        (b"let a = let x = 1", "Ended"),
        (b"let a = let x = 1 in", "Ended"),
    ];
    for (text, want) in cases {
        let line = shown(rt.alloc(), text)?;
        assert_eq!(rt; line.as_str(), want);
    }
    Ok(())
}

#[test]
fn answers_an_unexpected_word(rt: HostRuntime) -> Result<(), Fail> {
    let cases: [(&[u8], &str); 10] = [
        (b"import let", "Unexpected(7, WordLet)"),
        (b"let a = 1 import k", "Unexpected(10, WordImport)"),
        (b"let let", "Unexpected(4, WordLet)"),
        (b"let and = 1", "Unexpected(4, WordAnd)"),
        (b"let a = f fun x -> x", "Unexpected(10, WordFun)"),
        (b"let a = 1 + fun x -> x", "Unexpected(12, WordFun)"),
        (b"let a = if 1 else 2", "Unexpected(13, WordElse)"),
        (b"let a = let x = 1 let b = 2", "Unexpected(18, WordLet)"),
        (b"let a = 1 in 2", "Unexpected(10, WordIn)"),
        (b"val x : int", "Unexpected(0, WordVal)"),
    ];
    for (text, want) in cases {
        let line = shown(rt.alloc(), text)?;
        assert_eq!(rt; line.as_str(), want);
    }
    Ok(())
}

#[test]
fn answers_an_unexpected_name_number_or_symbol(rt: HostRuntime) -> Result<(), Fail> {
    let cases: [(&[u8], &str); 9] = [
        (b"a", "Unexpected(0, Name)"),
        (b"l", "Unexpected(0, Name)"),
        (b"le", "Unexpected(0, Name)"),
        (b"let a = )", "Unexpected(8, ParenRight)"),
        (b"let a = 1)", "Unexpected(9, ParenRight)"),
        (b"let a a", "Unexpected(6, Name)"),
        (b"let a = =", "Unexpected(8, Equals)"),
        (b"let f = fun x x", "Unexpected(14, Name)"),
        (b"let f = fun 1", "Unexpected(12, Number)"),
    ];
    for (text, want) in cases {
        let line = shown(rt.alloc(), text)?;
        assert_eq!(rt; line.as_str(), want);
    }
    Ok(())
}

#[test]
fn answers_an_unexpected_token_of_an_expression(rt: HostRuntime) -> Result<(), Fail> {
    let cases: [(&[u8], &str); 9] = [
        (b"let a = 1 < 2 < 3", "Unexpected(14, Less)"),
        (b"let a = 1 < 2 == 3", "Unexpected(14, DoubleEquals)"),
        (b"let a = {1}", "Unexpected(9, Number)"),
        (b"let a = {x 1}", "Unexpected(11, Number)"),
        (b"let a = {x = 1,}", "Unexpected(15, BraceRight)"),
        (b"let a = {x = 1 y = 2}", "Unexpected(17, Equals)"),
        (b"let a = r.1", "Unexpected(10, Number)"),
        (b"let a = 1 | 2", "Unexpected(10, Bar)"),
        (b"let a = {x = 1, x = 2} )", "Unexpected(23, ParenRight)"),
    ];
    for (text, want) in cases {
        let line = shown(rt.alloc(), text)?;
        assert_eq!(rt; line.as_str(), want);
    }
    Ok(())
}

#[test]
fn answers_what_is_given_twice(rt: HostRuntime) -> Result<(), Fail> {
    let cases: [(&[u8], &str); 10] = [
        (b"let a = 1 let a = 2", "DuplicateBinding(14)"),
        (b"let a = 1 let rec a = 2", "DuplicateBinding(18)"),
        (b"import k\nimport k", "DuplicateImport(16)"),
        (b"let r = {a = 1, a = 2}", "DuplicateLabel(16)"),
        (b"let r = {a = {b = 1, b = 2}, a = 3}", "DuplicateLabel(21)"),
        (b"let r = {a = 1, a = {b = 1, b = 2}}", "DuplicateLabel(16)"),
        (
            b"let r = {a = 1, b = 2, a = 3, b = 4}",
            "DuplicateLabel(23)",
        ),
        (b"let a = 1 let a = {x = 1, x = 2}", "DuplicateBinding(14)"),
        (b"let a = {x = 1, x = 2} let a = 1", "DuplicateLabel(16)"),
        (
            b"import k import k let a = {x = 1, x = 2}",
            "DuplicateImport(16)",
        ),
    ];
    for (text, want) in cases {
        let line = shown(rt.alloc(), text)?;
        assert_eq!(rt; line.as_str(), want);
    }
    Ok(())
}

#[test]
fn answers_what_is_given_twice_in_any_order(rt: HostRuntime) -> Result<(), Fail> {
    let cases: [(&[u8], &str); 8] = [
        (
            b"let r = {c = 1, b = 2, a = 3}",
            "r@4: 1@13 2@20 3@27 { c:0 b:1 a:2 }@8; ",
        ),
        (
            b"let b = 1 let d = 2 let a = 3 let c = 4",
            "b@4: 1@8; d@14: 2@18; a@24: 3@28; c@34: 4@38; ",
        ),
        (
            b"let r = {c = 1, b = 2, a = 3, a = 4}",
            "DuplicateLabel(30)",
        ),
        (
            b"let r = {c = 1, b = 2, a = 3, c = 4}",
            "DuplicateLabel(30)",
        ),
        (
            b"let r = {b = 1, d = 2, a = 3, b = 4}",
            "DuplicateLabel(30)",
        ),
        (
            b"let r = {b = 1, d = 2, a = 3, e = 4, a = 5}",
            "DuplicateLabel(37)",
        ),
        (
            b"let b = 1 let d = 2 let a = 3 let a = 4",
            "DuplicateBinding(34)",
        ),
        (
            b"import b import d import a import b",
            "DuplicateImport(34)",
        ),
    ];
    for (text, want) in cases {
        let line = shown(rt.alloc(), text)?;
        assert_eq!(rt; line.as_str(), want);
    }
    Ok(())
}

#[test]
fn reads_down_to_the_deepest_nesting(rt: HostRuntime) -> Result<(), Fail> {
    for (text, behind, want) in [
        ("(", "1", "TooDeep(208)"),
        ("(", "", "Ended"),
        ("(", ")", "Unexpected(208, ParenRight)"),
        ("fun x -> ", "x", "TooDeep(1808)"),
        ("f (", "x", "TooDeep(608)"),
        ("{l = ", "x", "TooDeep(1008)"),
        ("if ", "x", "TooDeep(608)"),
        ("let x = ", "x", "TooDeep(1608)"),
    ] {
        let alloc = rt.alloc();
        let text = repeated(alloc, "let a = ", text, 200, behind)?;
        let line = shown(alloc, text.as_bytes())?;
        assert_eq!(rt; line.as_str(), want);
    }
    let alloc = rt.alloc();
    let inner = repeated(alloc, "1", ")", 199, "")?;
    let text = repeated(alloc, "let d = ", "(", 199, inner.as_str())?;
    assert_eq!(rt; shown(alloc, text.as_bytes())?.as_str(), "d@4: 1@207; ");
    Ok(())
}

#[test]
fn reads_long_chains(rt: HostRuntime) -> Result<(), Fail> {
    let alloc = rt.alloc();
    for (before, text, count, nodes) in [
        ("let a = 1", "+1", 40_000, 160_001),
        ("let a = f", " x", 40_000, 80_001),
        ("let a = r", ".l", 40_000, 40_001),
    ] {
        let text = repeated(alloc, before, text, count, "")?;
        let module = parse_module(alloc, text.as_bytes())?;
        for binding in module.bindings.as_slice() {
            assert_eq!(rt; binding.expr.nodes.len(), nodes);
        }
    }
    Ok(())
}
