//! The long environment that was printed last.
ghost use Rattle.std.specs.Prelude.{◌≡◌, ◌++◌, [], OnOk};
ghost use Rattle.std.specs.List.{flat_map};
ghost use Rattle.mls_deriv.specs.Spellings.{entry_words};

use crate::derivation::BinderNode;
use crate::env::LONG;
use crate::print::add_env;
use crate::steps::is_same;
use mls_base::memory::Memory;
use std::alloc::Global;
use std::marker::Model;

/// The long environment that was printed last, with its words: steps behind one another often have the same one, whose
/// numbers are then not formatted again. Contracts see the binders with their nodes.
#[derive(Drop)]
pub(crate) struct LastEnv<'a> {
    env: &'a [BinderNode],
    words: Vec<u8>,
}

impl<'a> Model for LastEnv<'a> {
    ghost use Rattle.std.specs.Prelude.{◌≡◌, List};
    ghost use Rattle.std.specs.List.{flat_map};
    ghost use Rattle.mls_deriv.specs.declared.derivation.BinderNode.{BinderNode};
    ghost use Rattle.mls_deriv.specs.Spellings.{entry_words};

    ghost Value = { List BinderNode };

    ghost view = { λ last. last.env.now };

    ghost invariant = { λ last. last.words.items ≡ flat_map entry_words last.env.now };
}

impl<'a> LastEnv<'a> {
    /// An empty one. It allocates nothing.
    pub(crate) fn new(alloc: Global) -> LastEnv<'a>
        ensures { result ≡ [] }
    {
        LastEnv {
            env: &[],
            words: Vec::new(alloc),
        }
    }

    /// Prints the binders of an environment with their nodes.
    ///
    /// # Errors
    ///
    /// `Memory` where memory is wanting.
    pub(crate) fn add(
        &mut self,
        alloc: Global,
        text: &mut Vec<u8>,
        env: &'a [BinderNode],
    ) -> Result<(), Memory>
        ensures { OnOk result (text.new.items ≡ text.old.items ++ flat_map entry_words env.now) }
    {
        if env.len() < LONG {
            return add_env(text, env);
        }
        if !is_same(env, self.env) {
            self.keep(alloc, env)?;
        }
        text.extend_from_slice(self.words.as_slice())?;
        Ok(())
    }

    // Keeps an environment in place of the last one.
    fn keep(&mut self, alloc: Global, env: &'a [BinderNode]) -> Result<(), Memory>
        ensures { OnOk result (self.new ≡ env.now) }
    {
        let mut words = Vec::new(alloc);
        add_env(&mut words, env)?;
        self.env = env;
        self.words = words;
        Ok(())
    }
}
