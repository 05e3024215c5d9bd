//! What is inferred of a module.

use mls_base::list::List;
use mls_book::name::Name;
use mls_typetext::scheme::ReadScheme;

/// What is inferred of a module: an entry for each binding, in order.
#[derive(Drop)]
pub struct Signature {
    pub entries: List<SigEntry>,
}

/// An entry of a signature: a name, the text of its type, and what that text is read as.
#[derive(Drop)]
pub struct SigEntry {
    pub name: Name,
    pub text: List<u8>,
    pub scheme: ReadScheme,
}
