//! The texts of signatures.
ghost use Rattle.std.specs.Prelude.{◌≡◌, ◌++◌, IfOk, OnOk};
ghost use Rattle.mls_base.specs.Spelling.{IsName};
ghost use Rattle.mls_iface.specs.Signatures.{signature_text, val_line};

use crate::signature::Signature;
use mls_base::memory::Memory;
use mls_book::name::Name;
use std::alloc::Global;

/// The text of a signature, a line `val NAME : TYPE` for each entry. It is an interface that declares the names of the
/// entries with their schemes.
///
/// # Errors
///
/// `Memory` where memory is wanting.
pub fn print_interface(alloc: Global, signature: &Signature) -> Result<Vec<u8>, Memory>
    ensures { IfOk result (λ text. text.items ≡ signature_text signature.now.entries) }
{
    let mut text = Vec::new(alloc);
    for entry in signature.entries.as_slice() {
        add_val(&mut text, &entry.name, entry.text.as_slice())?;
    }
    Ok(text)
}

/// Adds the line `val NAME : TYPE` of an entry to a text, where this is the text of its type.
///
/// # Errors
///
/// `Memory` where memory is wanting.
pub fn add_val(text: &mut Vec<u8>, name: &Name, printed: &[u8]) -> Result<(), Memory>
    ensures line { OnOk result (text.new.items ≡ text.old.items ++ val_line name.now printed.now) }
    ensures name { IsName name.now }
{
    let letters = name.bytes();
    text.extend_from_slice(b"val ")?;
    text.extend_from_slice(letters)?;
    text.extend_from_slice(b" : ")?;
    text.extend_from_slice(printed)?;
    text.extend_from_slice(b"\n")?;
    Ok(())
}
