//! Signatures of modules without imports; the tests of `run` are over imports.
use mls_base::memory::Memory;
use mls_iface::interface::IfaceFault;
use mls_iface::laws::interface_is_valid;
use mls_iface::matching::MatchAnswer;
use mls_iface::read::read_interface;
use mls_iface::signature::SigEntry;
use mls_modules::check::check_module;
use mls_modules::environment::names_of;
use mls_modules::fault::ModuleFault;
use mls_modules::first::infer_first;
use mls_modules::infer::{infer_module, infer_text};
use mls_modules::laws::signatures_are_valid;
use mls_syntax::parse::{Fault, parse_module};
use std::alloc::{AllocError, Global};
use std::test::Fail;

// Why a case is none.
#[derive(Debug, Drop)]
enum Stop {
    Text(Fault),
    Interface(IfaceFault),
    Module(ModuleFault),
    Count,
    Alloc,
}

impl From<AllocError> for Stop {
    fn from(_e: AllocError) -> Stop {
        Stop::Alloc
    }
}

impl From<Memory> for Stop {
    fn from(_e: Memory) -> Stop {
        Stop::Alloc
    }
}

impl From<Fault> for Stop {
    fn from(e: Fault) -> Stop {
        Stop::Text(e)
    }
}

impl From<IfaceFault> for Stop {
    fn from(e: IfaceFault) -> Stop {
        Stop::Interface(e)
    }
}

impl From<ModuleFault> for Stop {
    fn from(e: ModuleFault) -> Stop {
        Stop::Module(e)
    }
}

fn add_entries(line: &mut String, entries: &[SigEntry]) -> Result<(), AllocError> {
    for entry in entries {
        let name = entry.name.as_str();
        match str::from_utf8(entry.text.as_slice()) {
            Ok(text) => write!(line, "{name} : {text}; ")?,
            Err(_) => write!(line, "no text; ")?,
        }
    }
    Ok(())
}

// The first entries of the signature of a module.
fn inferred(alloc: Global, text: &[u8], count: usize) -> Result<String, Stop> {
    let module = parse_module(alloc, text)?;
    if module.imports.len() != 0 || count > module.bindings.len() {
        return Err(Stop::Count);
    }
    let signature = infer_first(alloc, &module, &[], count)?;
    let mut line = String::new(alloc);
    add_entries(&mut line, signature.entries.as_slice())?;
    Ok(line)
}

// The line, or why there is none.
fn shown(alloc: Global, found: Result<String, Stop>) -> Result<String, AllocError> {
    match found {
        Ok(line) => Ok(line),
        Err(stop) => {
            let mut line = String::new(alloc);
            write!(line, "{stop:?}")?;
            Ok(line)
        }
    }
}

#[test]
fn infers_the_first_bindings(rt: HostRuntime) -> Result<(), Fail> {
    let text: &[u8] =
        b"let a = fun x -> if true then x.l else 1 let b = a {l = 1} + 2 let c = (b 1) 1 let d = z";
    let cases: [(&[u8], usize, &str); 6] = [
        (b"", 0, ""),
        (text, 0, ""),
        (text, 1, "a : {l: a} -> a | int; "),
        (text, 2, "a : {l: a} -> a | int; b : int; "),
        (
            text,
            3,
            "Module(NoScheme(2, Site { node: 2, kind: Unlike(Int, Function) }))",
        ),
        (text, 4, "Module(UnknownName(87))"),
    ];
    for (text, count, want) in cases {
        let line = shown(rt.alloc(), inferred(rt.alloc(), text, count))?;
        assert_eq!(rt; line.as_str(), want);
    }
    Ok(())
}

// The text of the signature of a module.
fn printed(alloc: Global, text: &[u8]) -> Result<String, Stop> {
    let module = parse_module(alloc, text)?;
    if module.imports.len() != 0 {
        return Err(Stop::Count);
    }
    let lines = infer_text(alloc, &module, &[])?;
    let mut line = String::new(alloc);
    match str::from_utf8(lines.as_slice()) {
        Ok(lines) => write!(line, "{lines}")?,
        Err(_) => write!(line, "no text")?,
    }
    Ok(line)
}

#[test]
fn prints_the_signature(rt: HostRuntime) -> Result<(), Fail> {
    let cases: [(&[u8], &str); 4] = [
        (b"", ""),
        (b"let a = fun x -> x", "val a : a -> a\n"),
        (
            b"let a = fun x -> x.l let b = a {l = 1} let c = fun f -> f b",
            "val a : {l: a} -> a\nval b : int\nval c : (int -> a) -> a\n",
        ),
        (
            b"let a = 1 let b = a 1",
            "Module(NoScheme(1, Site { node: 2, kind: Unlike(Int, Function) }))",
        ),
    ];
    for (text, want) in cases {
        let line = shown(rt.alloc(), printed(rt.alloc(), text))?;
        assert_eq!(rt; line.as_str(), want);
    }
    Ok(())
}

// How many names mean something behind the entries of a module.
fn counted(alloc: Global, text: &[u8]) -> Result<usize, Stop> {
    let module = parse_module(alloc, text)?;
    if module.imports.len() != 0 {
        return Err(Stop::Count);
    }
    let signature = infer_module(alloc, &module, &[])?;
    signatures_are_valid();
    let names = names_of(alloc, &[], &signature)?;
    Ok(names.schemes.len())
}

#[test]
fn names_mean_operators_and_entries(rt: HostRuntime) -> Result<(), Fail> {
    match counted(rt.alloc(), b"let a = 1 let b = a") {
        Ok(count) => assert_eq!(rt; count, 7),
        Err(_) => assert!(rt; false),
    }
    Ok(())
}

// The answer of a module to its own interface.
fn matched(alloc: Global, text: &[u8], own: &[u8]) -> Result<String, Stop> {
    let module = parse_module(alloc, text)?;
    if module.imports.len() != 0 {
        return Err(Stop::Count);
    }
    interface_is_valid();
    let own = read_interface(alloc, own)?;
    let answer = check_module(alloc, &module, &[], &own)?;
    let mut line = String::new(alloc);
    match answer {
        MatchAnswer::All => write!(line, "all")?,
        MatchAnswer::Missing(name) => write!(line, "no {}", name.as_str())?,
        MatchAnswer::TooSpecial(name, _path) => write!(line, "special {}", name.as_str())?,
    }
    Ok(line)
}

#[test]
fn matches_its_own_interface(rt: HostRuntime) -> Result<(), Fail> {
    let cases: [(&[u8], &[u8], &str); 4] = [
        (b"let a = fun x -> x", b"val a : int -> int", "all"),
        (b"let a = 1", b"val b : int val a : bool", "no b"),
        (b"let a = fun x -> x + 1", b"val a : a -> a", "special a"),
        (b"let a = 1 let b = 2", b"", "all"),
    ];
    for (text, own, want) in cases {
        match matched(rt.alloc(), text, own) {
            Ok(line) => assert_eq!(rt; line.as_str(), want),
            Err(_) => assert!(rt; false),
        }
    }
    Ok(())
}
