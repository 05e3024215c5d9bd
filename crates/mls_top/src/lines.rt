//! Names of files, and the lines of refusals.
ghost use Rattle.std.specs.Prelude.{◌≡◌, ◌++◌, string_bytes, IfOk, OnOk};
ghost use Rattle.mls_top.specs.Lines.{module_file, interface_file, not_found_line, too_long_line, fault_line};
ghost use Rattle.mls_top.specs.Lines.{bad_line_text, derivation_file, not_allowed_line, verified_line};
ghost use Rattle.mls_top.specs.Lines.{generated_line, head_text, kind_text, no_scheme_line, place_text};

use mls_base::memory::Memory;
use mls_book::name::Name;
use mls_infer::fault::{HeadKind, SiteKind};
use std::alloc::Global;

/// The file of a module's text.
pub fn module_file(alloc: Global, name: &Name) -> Result<String, Memory>
    ensures { IfOk result (λ file. string_bytes file ≡ module_file name.now) }
{
    let mut file = String::new(alloc);
    file.push_str(name.as_str())?;
    file.push_str(".ml")?;
    Ok(file)
}

/// The file of a module's interface.
pub fn interface_file(alloc: Global, name: &Name) -> Result<String, Memory>
    ensures { IfOk result (λ file. string_bytes file ≡ interface_file name.now) }
{
    let mut file = String::new(alloc);
    file.push_str(name.as_str())?;
    file.push_str(".mli")?;
    Ok(file)
}

/// The file of a derivation for a module.
pub fn derivation_file(alloc: Global, name: &Name) -> Result<String, Memory>
    ensures { IfOk result (λ file. string_bytes file ≡ derivation_file name.now) }
{
    let mut file = String::new(alloc);
    file.push_str(name.as_str())?;
    file.push_str(".mld")?;
    Ok(file)
}

/// The line of a file that is not there.
pub fn not_found_line(alloc: Global, file: &str) -> Result<Vec<u8>, Memory>
    ensures { IfOk result (λ line. line.items ≡ not_found_line file.now) }
{
    let mut line = Vec::new(alloc);
    line.extend_from_slice(file.as_bytes())?;
    line.extend_from_slice(b": not found\n")?;
    Ok(line)
}

/// The line of a file that has more bytes than the limit.
pub fn too_long_line(alloc: Global, file: &str, limit: usize) -> Result<Vec<u8>, Memory>
    ensures { IfOk result (λ line. line.items ≡ too_long_line file.now limit) }
{
    let mut line = Vec::new(alloc);
    line.extend_from_slice(file.as_bytes())?;
    line.extend_from_slice(b": longer than ")?;
    line.extend_from_slice(limit.to_string(alloc)?.as_bytes())?;
    line.extend_from_slice(b" bytes\n")?;
    Ok(line)
}

/// The line of a module whose derivation is allowed.
pub fn verified_line(alloc: Global, name: &Name) -> Result<Vec<u8>, Memory>
    ensures { IfOk result (λ line. line.items ≡ verified_line name.now) }
{
    let mut line = Vec::new(alloc);
    line.extend_from_slice(name.bytes())?;
    line.extend_from_slice(b" is verified\n")?;
    Ok(line)
}

/// The line of a module whose derivation has a step that is not allowed, with the number of the step.
pub fn not_allowed_line(alloc: Global, name: &Name, step: usize) -> Result<Vec<u8>, Memory>
    ensures { IfOk result (λ line. line.items ≡ not_allowed_line name.now step) }
{
    let mut line = Vec::new(alloc);
    line.extend_from_slice(name.bytes())?;
    line.extend_from_slice(b": step ")?;
    line.extend_from_slice(step.to_string(alloc)?.as_bytes())?;
    line.extend_from_slice(b" is not allowed\n")?;
    Ok(line)
}

/// What is told of a file whose line of this number is none of a derivation.
pub fn bad_line_text(alloc: Global, file: &str, line: usize) -> Result<Vec<u8>, Memory>
    ensures { IfOk result (λ text. text.items ≡ bad_line_text file.now line) }
{
    let mut text = Vec::new(alloc);
    text.extend_from_slice(file.as_bytes())?;
    text.extend_from_slice(b":")?;
    text.extend_from_slice(line.to_string(alloc)?.as_bytes())?;
    text.extend_from_slice(b": fault 19: bad line\n")?;
    Ok(text)
}

/// The line of a generated module with `count` bindings, whose text and printed signature have so many bytes.
pub fn generated_line(
    alloc: Global,
    count: usize,
    bytes: usize,
    printed: usize,
) -> Result<Vec<u8>, Memory>
    ensures { IfOk result (λ line. line.items ≡ generated_line count bytes printed) }
{
    let mut line = Vec::new(alloc);
    line.extend_from_slice(b"generate: ")?;
    line.extend_from_slice(count.to_string(alloc)?.as_bytes())?;
    line.extend_from_slice(b" bindings, ")?;
    line.extend_from_slice(bytes.to_string(alloc)?.as_bytes())?;
    line.extend_from_slice(b" bytes in, ")?;
    line.extend_from_slice(printed.to_string(alloc)?.as_bytes())?;
    line.extend_from_slice(b" bytes out\n")?;
    Ok(line)
}

/// The line of a fault of a file's text, with its line and column, its number, and what is said of it.
pub fn fault_line(
    alloc: Global,
    file: &str,
    place: (usize, usize),
    number: usize,
    said: &str,
) -> Result<Vec<u8>, Memory>
    ensures { IfOk result (λ text. text.items ≡ fault_line file.now place.0 place.1 number said.now) }
{
    let mut text = Vec::new(alloc);
    add_place(alloc, &mut text, file, place)?;
    text.extend_from_slice(b": fault ")?;
    text.extend_from_slice(number.to_string(alloc)?.as_bytes())?;
    text.extend_from_slice(b": ")?;
    text.extend_from_slice(said.as_bytes())?;
    text.extend_from_slice(b"\n")?;
    Ok(text)
}

/// The line of a binding of a file's text that has no scheme, with the line and column of its first expression that has
/// none, and why it has none.
pub fn no_scheme_line(
    alloc: Global,
    file: &str,
    place: (usize, usize),
    binding: &Name,
    kind: &SiteKind,
) -> Result<Vec<u8>, Memory>
    ensures { IfOk result (λ text. text.items ≡ no_scheme_line file.now place.0 place.1 binding.now kind.now) }
{
    let mut text = Vec::new(alloc);
    add_place(alloc, &mut text, file, place)?;
    text.extend_from_slice(b": no scheme for ")?;
    text.extend_from_slice(binding.bytes())?;
    text.extend_from_slice(b": ")?;
    add_kind(&mut text, kind)?;
    text.extend_from_slice(b"\n")?;
    Ok(text)
}

// Adds why an expression has no scheme.
fn add_kind(text: &mut Vec<u8>, kind: &SiteKind) -> Result<(), Memory>
    ensures { OnOk result (text.new.items ≡ text.old.items ++ kind_text kind.now) }
{
    match kind {
        SiteKind::Unlike(there, wanted) => {
            text.extend_from_slice(head_text(there))?;
            text.extend_from_slice(b" where ")?;
            text.extend_from_slice(head_text(wanted))?;
            text.extend_from_slice(b" is expected")?;
        }
        SiteKind::Lacks(label) => {
            text.extend_from_slice(b"a record without the field ")?;
            text.extend_from_slice(label.bytes())?;
        }
    }
    Ok(())
}

// What is said of a part of a type.
fn head_text(head: &HeadKind) -> &'static [u8]
    ensures { result.now ≡ head_text head.now }
{
    match head {
        HeadKind::Bool => b"bool",
        HeadKind::Int => b"int",
        HeadKind::Function => b"a function",
        HeadKind::Rcd => b"a record",
    }
}

// Adds a place of a file: its line and its column.
fn add_place(
    alloc: Global,
    text: &mut Vec<u8>,
    file: &str,
    place: (usize, usize),
) -> Result<(), Memory>
    ensures { OnOk result (text.new.items ≡ text.old.items ++ place_text file.now place.0 place.1) }
{
    text.extend_from_slice(file.as_bytes())?;
    text.extend_from_slice(b":")?;
    text.extend_from_slice(place.0.to_string(alloc)?.as_bytes())?;
    text.extend_from_slice(b":")?;
    text.extend_from_slice(place.1.to_string(alloc)?.as_bytes())?;
    Ok(())
}
