//! An environment that grows, over which one expression after another is inferred.
ghost use Rattle.std.specs.Prelude.{◌≡◌, ◌++◌, ◌∷◌, [], length, IfErr, IfOk, OnErr, OnOk};
ghost use Rattle.mls_automaton.specs.declared.scheme.Scheme.{Scheme};
ghost use Rattle.mls_automaton.specs.Schemes.{IsScheme};
ghost use Rattle.mls_scheme.specs.ReadTypes.{IsPolarisedRead};
ghost use Rattle.mls_shape.specs.Simplified.{IsSimplified};
ghost use Rattle.mls_term.specs.WellFormed.{IsTerm};
ghost use Rattle.mls_typetext.specs.Laws.{IsReadScheme};
ghost use Rattle.mls_infer.specs.Inference.{AreNames, IsBestFor, IsFirstWithout, TellsKindOf};

use crate::fault::InferFault;
use crate::infer::infer_noting;
use crate::reads::Uses;
use mls_automaton::scheme::Scheme;
use mls_base::memory::Memory;
use mls_term::term::Term;
use mls_typetext::scheme::{Names, ReadScheme};
use std::alloc::Global;
use std::marker::Model;

/// An environment of schemes that names mean, with the types of the names that were used twice or more: what uses them
/// again reads no scheme. Contracts see the environment alone.
#[derive(Drop)]
pub struct Environment {
    names: Names,
    uses: Uses,
}

impl Model for Environment {
    ghost use Rattle.mls_typetext.specs.declared.scheme.Names.{Names};
    ghost use Rattle.mls_infer.specs.Fields.{AreReads};
    ghost use Rattle.mls_infer.specs.Inference.{AreNames, schemes_in};

    ghost Value = { Names };

    ghost view = { λ a. a.names };

    ghost invariant = { λ a. AreNames a.names × AreReads (schemes_in a.names) a.uses.reads };
}

impl Environment {
    /// The environment of these names. It allocates nothing.
    pub fn new(alloc: Global, names: Names) -> Environment
        requires { AreNames names }
        ensures { result ≡ names }
    {
        Environment {
            names,
            uses: Uses::new(alloc),
        }
    }

    /// Adds the scheme of one more name.
    ///
    /// # Errors
    ///
    /// `Memory` where memory is wanting; the environment is then as before.
    pub fn add(&mut self, scheme: ReadScheme) -> Result<(), Memory>
        requires read { IsReadScheme scheme }
        requires polarised { IsPolarisedRead scheme }
        ensures ok { OnOk result (self.new.schemes ≡ self.old.schemes ++ scheme ∷ []) }
        ensures err { OnErr result (self.new ≡ self.old) }
    {
        self.names.schemes.push(scheme)?;
        Ok(())
    }

    /// The most general scheme of an expression, as `infer` gives it over the environment.
    ///
    /// # Errors
    ///
    /// Those of `infer`.
    pub fn infer(&mut self, alloc: Global, term: &Term) -> Result<Scheme, InferFault>
        requires term { IsTerm (length self.old.schemes) term.now.nodes term.now.binders term.now.lets }
        ensures environment { self.new ≡ self.old }
        ensures scheme { IfOk result IsScheme }
        ensures env { IfOk result (λ (s : Scheme). s.env ≡ []) }
        ensures simplified { IfOk result IsSimplified }
        ensures best { IfOk result (IsBestFor self.old term.now) }
        ensures first { IfErr result (IsFirstWithout self.old term.now) }
        ensures kind { IfErr result (TellsKindOf self.old term.now) }
    {
        infer_noting(alloc, &self.names, &mut self.uses, term)
    }
}
