//! Modules and their terms: the grammar, the reader, the meaning of names, and the rules of typing, under one name.
#![tactic(auto)]

pub use mls_grammar::{
    Binding, Expr, ExprNode, Fault, Form, Import, Kind, List, Memory, Module, Name, Op,
    grammar_laws, laws, module,
};
pub use mls_names::resolve::NameList;
pub use mls_names::{resolution_laws, resolve};
pub use mls_reader::parse;
pub use mls_reader::parse::parse_module;
pub use mls_term::term::{Resolved, ResolvedBinding, Term};
pub use mls_term::{term, typing_laws};

#[cfg(test)]
mod tests {
    use crate::parse::{Fault, parse_module};
    use crate::resolve::resolve;
    use crate::term::Term;
    use std::alloc::Global;
    use std::process::Abort;
    use std::test::Fail;

    // The binders, lets and nodes of each term of a text.
    fn shown(rt: &impl Abort, alloc: Global, text: &[u8]) -> Result<String, Fault> {
        let module = parse_module(alloc, text)?;
        assert!(rt; module.imports.as_slice().is_empty());
        let resolved = resolve(alloc, &module, &[])?;
        let mut line = String::new(alloc);
        for binding in resolved.bindings.as_slice() {
            let Term {
                nodes,
                binders,
                lets,
            } = &binding.term;
            write!(line, "{}: {binders} {lets}", binding.at)?;
            for node in nodes.as_slice() {
                write!(line, " {:?}@{}", node.form, node.at)?;
            }
            write!(line, "; ")?;
        }
        Ok(line)
    }

    #[test]
    fn names_mean_the_innermost_binder(rt: HostRuntime) -> Result<(), Fail> {
        let cases: [(&[u8], &str); 10] = [
            (b"", ""),
            (
                b"let k = fun x -> fun y -> x",
                "4: 2 0 Bound(0)@26 Fun(1, 0)@17 Fun(0, 1)@8; ",
            ),
            (
                b"let s = fun x -> fun x -> x",
                "4: 2 0 Bound(1)@26 Fun(1, 0)@17 Fun(0, 1)@8; ",
            ),
            (
                b"let m = fun a -> fun b -> fun c -> b",
                "4: 3 0 Bound(1)@35 Fun(2, 0)@26 Fun(1, 1)@17 Fun(0, 2)@8; ",
            ),
            (
                b"let t = true let c = fun x -> 7",
                "4: 0 0 Truth(true)@8; 17: 1 0 Number(7)@30 Fun(0, 0)@21; ",
            ),
            (
                b"let a = fun x -> fun y -> y x",
                "4: 2 0 Bound(1)@26 Bound(0)@28 Apply(0, 1)@26 Fun(1, 2)@17 Fun(0, 3)@8; ",
            ),
            (b"let a = rec f -> f", "4: 1 0 Bound(0)@17 Rec(0, 0)@8; "),
            (
                b"let rec a = fun x -> a x",
                "8: 2 0 Bound(0)@21 Bound(1)@23 Apply(0, 1)@21 Fun(1, 2)@12 Rec(0, 3)@4; ",
            ),
            (
                b"let a = fun x -> let x = 7 in x",
                "4: 1 1 Number(7)@25 Inner(0)@30 Let(0, 0, 1)@17 Fun(0, 2)@8; ",
            ),
            (
                b"let a = let x = 7 in fun x -> x",
                "4: 1 1 Number(7)@16 Bound(0)@30 Fun(0, 1)@21 Let(0, 0, 2)@8; ",
            ),
        ];
        for (text, want) in cases {
            let line = shown(&rt, rt.alloc(), text)?;
            assert_eq!(rt; line.as_str(), want);
        }
        Ok(())
    }

    #[test]
    fn binders_and_lets_are_numbered_by_the_text(rt: HostRuntime) -> Result<(), Fail> {
        let cases: [(&[u8], &str); 9] = [
            (
                b"let a = let x = fun y -> y in fun z -> x z",
                "4: 2 1 Bound(0)@25 Fun(0, 0)@16 Inner(0)@39 Bound(1)@41 Apply(2, 3)@39 Fun(1, 4)@30 Let(0, 1, 5)@8; ",
            ),
            (
                b"let a = let x = let y = 7 in y in let z = 8 in z x",
                "4: 0 3 Number(7)@24 Inner(1)@29 Let(1, 0, 1)@16 Number(8)@42 Inner(2)@47 Inner(0)@49 Apply(4, 5)@47 Let(2, 3, 6)@34 Let(0, 2, 7)@8; ",
            ),
            (
                b"let a = let rec f = fun x -> f x in f",
                "4: 2 1 Bound(0)@29 Bound(1)@31 Apply(0, 1)@29 Fun(1, 2)@20 Rec(0, 3)@12 Inner(0)@36 Let(0, 4, 5)@8; ",
            ),
            (
                b"let a = {l = fun y -> y, k = fun w -> w}.l",
                "4: 2 0 Bound(0)@22 Fun(0, 0)@13 Bound(1)@38 Fun(1, 2)@29 Make(List { items: [Part { label: Name { letters: [108] }, child: 1 }, Part { label: Name { letters: [107] }, child: 3 }] })@8 Project(4, Name { letters: [108] })@41; ",
            ),
            (
                b"let a = if true then fun x -> x else let b = 1 in b",
                "4: 1 1 Truth(true)@11 Bound(0)@30 Fun(0, 1)@21 Number(1)@45 Inner(0)@50 Let(0, 3, 4)@37 If(0, 2, 5)@8; ",
            ),
            (
                b"let a = 1 + 2 * 3 - 4 < 5",
                "4: 0 0 Global(3)@22 Global(1)@18 Global(0)@10 Number(1)@8 Apply(2, 3)@10 Global(2)@14 Number(2)@12 Apply(5, 6)@14 Number(3)@16 Apply(7, 8)@14 Apply(4, 9)@10 Apply(1, 10)@18 Number(4)@20 Apply(11, 12)@18 Apply(0, 13)@22 Number(5)@24 Apply(14, 15)@22; ",
            ),
            (
                b"let a = fun x -> x == 1",
                "4: 1 0 Global(4)@19 Bound(0)@17 Apply(0, 1)@19 Number(1)@22 Apply(2, 3)@19 Fun(0, 4)@8; ",
            ),
            (
                b"let a = 1 let b = fun a -> a let c = a",
                "4: 0 0 Number(1)@8; 14: 1 0 Bound(0)@27 Fun(0, 0)@18; 33: 0 0 Global(5)@37; ",
            ),
            (
                b"let a = fun l -> {l = l}.l",
                "4: 1 0 Bound(0)@22 Make(List { items: [Part { label: Name { letters: [108] }, child: 0 }] })@17 Project(1, Name { letters: [108] })@25 Fun(0, 2)@8; ",
            ),
        ];
        for (text, want) in cases {
            let line = shown(&rt, rt.alloc(), text)?;
            assert_eq!(rt; line.as_str(), want);
        }
        Ok(())
    }

    #[test]
    fn the_first_name_without_a_meaning_is_told(rt: HostRuntime) -> Result<(), Fail> {
        let cases: [(&[u8], usize); 6] = [
            (b"let a = let x = x in x", 16),
            (b"let a = b let b = 1", 8),
            (b"let a = f (g x)", 8),
            (b"let a = 1 let b = a c d", 20),
            (b"let a = (fun x -> x) x", 21),
            (b"let a = {l = 1, k = y + z}", 20),
        ];
        for (text, place) in cases {
            match shown(&rt, rt.alloc(), text) {
                Ok(line) => assert_eq!(rt; line.as_str(), "a fault"),
                Err(fault) => assert_eq!(rt; fault, Fault::UnknownName(place)),
            }
        }
        Ok(())
    }
}
