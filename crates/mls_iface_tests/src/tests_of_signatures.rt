//! Signatures, their texts, and the interfaces that they match.
ghost use Rattle.std.specs.Prelude.{◌≡◌, IfOk};
ghost use Rattle.std.specs.List.{list_all};
ghost use Rattle.mls_iface.specs.Signatures.{is_plain, IsEntry, AreEntries};

use mls_automaton::automaton::HeadKind;
use mls_base::list::List;
use mls_base::memory::Memory;
use mls_base::spelling::is_name;
use mls_book::name::Name;
use mls_iface::interface::IfaceFault;
use mls_iface::laws::interface_is_valid;
use mls_iface::matching::{MatchAnswer, Path, matches};
use mls_iface::print::{add_val, print_interface};
use mls_iface::read::read_interface;
use mls_iface::signature::{SigEntry, Signature};
use mls_subsume::verdict::{Reason, Step};
use mls_typetext::from_text::read_type;
use std::alloc::Global;
use std::process::Abort;
use std::test::Fail;

// A name and the text of a type.
type Row<'a> = (&'a [u8], &'a [u8]);

fn is_plain(bytes: &[u8]) -> bool
    ensures { result ≡ list_all is_plain bytes.now }
{
    bytes.iter().all(|byte| *byte != 10 && *byte != 35)
}

fn copy_of(alloc: Global, bytes: &[u8]) -> Result<List<u8>, Memory>
    ensures { IfOk result (λ copy. copy ≡ bytes.now) }
{
    let mut copy = List::new(alloc);
    for byte in bytes {
        copy.push(*byte)?;
    }
    Ok(copy)
}

fn entry(rt: &impl Abort, alloc: Global, row: Row) -> Result<SigEntry, IfaceFault>
    ensures { IfOk result IsEntry }
{
    assert!(rt; is_name(row.0));
    assert!(rt; is_plain(row.1));
    let name = Name::new(alloc, row.0)?;
    let text = copy_of(alloc, row.1)?;
    let scheme = read_type(alloc, row.1)?;
    Ok(SigEntry { name, text, scheme })
}

fn signature(
    rt: &impl Abort,
    alloc: Global,
    first: Row,
    second: Row,
) -> Result<Signature, IfaceFault>
    ensures { IfOk result (λ s. AreEntries s.entries) }
{
    let one = entry(rt, alloc, first)?;
    let other = entry(rt, alloc, second)?;
    assert!(rt; one.name != other.name);
    let mut entries = List::new(alloc);
    entries.push(one)?;
    entries.push(other)?;
    Ok(Signature { entries })
}

fn add_path(line: &mut String, path: &Path) -> Result<(), Fail> {
    line.push_str(" root")?;
    for step in path.steps.as_slice() {
        match step {
            Step::Domain => line.push_str(".dom")?,
            Step::Codomain => line.push_str(".cod")?,
            Step::At(label) => write!(line, ".{{{}}}", label.as_str())?,
        }
    }
    match &path.reason {
        Reason::Head(HeadKind::Bool) => line.push_str(" bool")?,
        Reason::Head(HeadKind::Int) => line.push_str(" int")?,
        Reason::Head(HeadKind::Function) => line.push_str(" function")?,
        Reason::Head(HeadKind::Rcd) => line.push_str(" record")?,
        Reason::Label(label) => write!(line, " field {}", label.as_str())?,
        Reason::Flow => line.push_str(" flow")?,
    }
    Ok(())
}

// What a signature answers to the text of an interface.
fn shown(alloc: Global, signature: &Signature, text: &[u8]) -> Result<String, Fail>
    requires { AreEntries signature.now.entries }
{
    let mut line = String::new(alloc);
    interface_is_valid();
    match read_interface(alloc, text) {
        Err(fault) => write!(line, "{fault:?}")?,
        Ok(interface) => match matches(alloc, signature, &interface)? {
            MatchAnswer::All => line.push_str("all")?,
            MatchAnswer::Missing(name) => write!(line, "{} missing", name.as_str())?,
            MatchAnswer::TooSpecial(name, path) => {
                line.push_str(name.as_str())?;
                add_path(&mut line, &path)?;
            }
        },
    }
    Ok(line)
}

#[test]
fn signatures_match_interfaces(rt: HostRuntime) -> Result<(), Fail> {
    let rows: [(&[u8], &str); 13] = [
        (b"", "all"),
        (b"val id : a -> a", "all"),
        (b"val r : {l: int} val id : int -> int", "all"),
        (b"val x : int", "x missing"),
        (b"val x : int val id : int val y : int", "x missing"),
        (b"val id : int -> int val y : int val x : int", "y missing"),
        (b"val id : int", "id root function"),
        (b"val id : a -> b", "id root.cod flow"),
        (b"val id : bool -> int val r : int", "id root.cod flow"),
        (b"val id : a -> a val r : int", "r root record"),
        (b"val r : {l: bool}", "r root.{l} int"),
        (b"val r : {n: a -> bool, l: int}", "r root field n"),
        (b"val id : {l: a} -> {l: a, m: int}", "id root.cod flow"),
    ];
    let made = signature(
        &rt,
        rt.alloc(),
        (b"r", b"{l: int, m: bool}"),
        (b"id", b"a -> a"),
    );
    assert!(rt; made.is_ok());
    if let Ok(signature) = made {
        for (text, want) in rows {
            let line = shown(rt.alloc(), &signature, text)?;
            assert_eq!(rt; line.as_str(), want);
        }
    }
    Ok(())
}

#[test]
fn the_text_of_a_signature_is_an_interface(rt: HostRuntime) -> Result<(), Fail> {
    let rows: [(Row, Row, &str); 3] = [
        (
            (b"a", b"int"),
            (b"b", b"a -> a"),
            "val a : int\nval b : a -> a\n",
        ),
        (
            (b"x2", b"rec a. {l: a}"),
            (b"x1", b" {} "),
            "val x2 : rec a. {l: a}\nval x1 :  {} \n",
        ),
        (
            (b"f", b"(a -> b) -> a -> b"),
            (b"g", b"bot"),
            "val f : (a -> b) -> a -> b\nval g : bot\n",
        ),
    ];
    for (first, second, want) in rows {
        let made = signature(&rt, rt.alloc(), first, second);
        assert!(rt; made.is_ok());
        if let Ok(signature) = made {
            let text = print_interface(rt.alloc(), &signature)?;
            assert_eq!(rt; text.as_slice(), want.as_bytes());
            let line = shown(rt.alloc(), &signature, text.as_slice())?;
            assert_eq!(rt; line.as_str(), "all");
        }
    }
    Ok(())
}

#[test]
fn an_entry_is_a_line(rt: HostRuntime) -> Result<(), Fail> {
    let mut text = Vec::new(rt.alloc());
    assert!(rt; is_name(b"x"));
    add_val(&mut text, &Name::new(rt.alloc(), b"x")?, b"int")?;
    assert!(rt; is_name(b"id"));
    add_val(&mut text, &Name::new(rt.alloc(), b"id")?, b"a -> a")?;
    let want = "val x : int\nval id : a -> a\n";
    assert_eq!(rt; text.as_slice(), want.as_bytes());
    Ok(())
}
