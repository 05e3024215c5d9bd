//! Names where they stand in a text.
ghost use Rattle.std.specs.Prelude.{◌≡◌, IfOk, bytes_eq};
ghost use Rattle.std.proofs.Common.{rules, sym};
ghost use Rattle.std.specs.Cmp.{partial_equiv_from_equiv};
ghost use Rattle.std.specs.Cmp.Rules.{comparing};
ghost use Rattle.std.specs.Ordering.{as_partial_cmp};
ghost use Rattle.std.proofs.lemmas.Cmp.{nat_list_eq_equiv};
ghost use Rattle.mls_base.specs.Spelling.{IsName};
ghost use Rattle.mls_reader.specs.steps.Spellings.{spelling_cmp};
ghost use Rattle.mls_reader.specs.steps.SpellingOrder.{spelling_ties, spelling_total};

use mls_base::memory::Memory;
use mls_book::name::Name;
use std::alloc::Global;
use std::cmp::Ordering;
use std::marker::Model;

/// A name where it stands in a text. Contracts see its bytes.
#[derive(Debug, Drop)]
pub struct Spelling<'a> {
    letters: &'a [u8],
}

impl<'a> Model for Spelling<'a> {
    ghost use Rattle.std.specs.Prelude.{List, ℕ};
    ghost use Rattle.mls_base.specs.Spelling.{IsName};

    ghost Value = { List ℕ };

    ghost view = { λ s. s.letters.now };

    ghost invariant = { λ s. IsName s.letters.now };
}

impl<'a> Spelling<'a> {
    /// Takes the bytes of a name.
    pub fn new(letters: &'a [u8]) -> Spelling<'a>
        requires { IsName letters.now }
        ensures { result ≡ letters.now }
    {
        Spelling { letters }
    }

    /// The same name once more.
    pub fn again(&self) -> Spelling<'a>
        ensures { result ≡ self.now }
    {
        Spelling {
            letters: self.letters,
        }
    }

    /// A name of these letters.
    pub fn name(&self, alloc: Global) -> Result<Name, Memory>
        ensures { IfOk result (λ name. name ≡ self.now) }
    {
        Name::new(alloc, self.letters)
    }
}

/// They are equal where their bytes are.
impl<'a> PartialEq for Spelling<'a> {
    ghost eq = { bytes_eq };

    ghost laws = { partial_equiv_from_equiv nat_list_eq_equiv };

    fn eq(&self, other: &Spelling<'a>) -> bool {
        self.letters == other.letters
    }
}

impl<'a> Eq for Spelling<'a> {
    ghost laws = { nat_list_eq_equiv };
}

/// Shorter ones come first, and those of one length are ordered as in a dictionary. So names that are numbered rise.
impl<'a> Ord for Spelling<'a> {
    ghost cmp = { spelling_cmp };

    ghost total = { spelling_total };

    ghost matches_partial_cmp = { Prim.search (comparing, rules) };

    ghost matches_eq = { λ x y. sym (spelling_ties x y) };

    fn cmp(&self, other: &Spelling<'a>) -> Ordering {
        let longer = self.letters.len().cmp(&other.letters.len());
        if longer.is_ne() {
            return longer;
        }
        self.letters.cmp(&other.letters)
    }
}

impl<'a> PartialOrd for Spelling<'a> {
    ghost partial_cmp = { as_partial_cmp spelling_cmp };

    ghost laws = { Prim.search (comparing, rules) };

    fn partial_cmp(&self, other: &Spelling<'a>) -> Option<Ordering> {
        Some(self.cmp(other))
    }
}
