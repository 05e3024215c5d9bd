//! Types of short texts, which many bindings of a module share.
ghost use Rattle.std.specs.Prelude.{◌≡◌, IfOk, IfSome, OnOk, All};
ghost use Rattle.mls_typetext.specs.Texts.{IsTypeText};
ghost use Rattle.mls_modules.specs.steps.Inferring.{AreTypes, IsType};

use crate::copy::copy_scheme;
use crate::types::type_of;
use mls_base::memory::Memory;
use mls_typetext::scheme::ReadScheme;
use std::alloc::Global;

// How long a text is at most that is kept, in bytes, and how many are.
const LONGEST: usize = 64;

const MOST: usize = 16;

/// What a text was read as.
#[derive(Drop)]
pub(crate) struct ShortType {
    text: Vec<u8>,
    read: ReadScheme,
}

/// The last short texts that were read, each with what it was read as.
#[derive(Drop)]
pub(crate) struct ShortTypes {
    types: Vec<ShortType>,
    next: usize,
}

impl ShortTypes {
    /// None. It allocates nothing.
    pub(crate) fn new(alloc: Global) -> ShortTypes
        ensures { AreTypes result }
    {
        ShortTypes {
            types: Vec::new(alloc),
            next: 0,
        }
    }

    /// What a text that is a type is read as: a copy, where it is the text of one of the last short types.
    ///
    /// # Errors
    ///
    /// `Memory` where memory is wanting.
    pub(crate) fn type_of(&mut self, alloc: Global, text: &[u8]) -> Result<ReadScheme, Memory>
        requires types { AreTypes self.old }
        requires is { IsType text.now }
        ensures types { OnOk result (AreTypes self.new) }
        ensures read { IfOk result (λ read. IsTypeText text.now read) }
    {
        if let Some(known) = self.find(text) {
            let copy = copy_scheme(alloc, known)?;
            return Ok(copy);
        }
        let read = type_of(alloc, text)?;
        self.keep(alloc, text, &read)?;
        Ok(read)
    }

    // What this text was read as.
    fn find(&self, text: &[u8]) -> Option<&ReadScheme>
        requires { AreTypes self.now }
        ensures { IfSome result (λ read. IsTypeText text.now read.now) }
    {
        for known in &self.types {
            if known.text.as_slice() == text {
                return Some(&known.read);
            }
        }
        None
    }

    // Keeps what a text was read as, if it is short, in place of the one that was kept first if there are many.
    fn keep(&mut self, alloc: Global, text: &[u8], read: &ReadScheme) -> Result<(), Memory>
        requires types { AreTypes self.old }
        requires is { IsTypeText text.now read.now }
        ensures { OnOk result (AreTypes self.new) }
    {
        if text.len() > LONGEST {
            return Ok(());
        }
        let one = ShortType {
            text: text.to_vec(alloc)?,
            read: copy_scheme(alloc, read)?,
        };
        if self.types.len() < MOST {
            self.types.push(one)?;
            return Ok(());
        }
        let at = self.next % MOST;
        self.types[at] = one;
        self.next = at + 1;
        Ok(())
    }
}
