//! The variables of a type with their numbers.
ghost use Rattle.std.specs.Prelude.{◌≡◌, [], length, IfOk, OnOk, bytes_eq};
ghost use Rattle.std.specs.List.{position_or_len};
ghost use Rattle.mls_typetext.specs.steps.Variables.{with_name};

use mls_base::memory::Memory;
use mls_book::name::Name;
use std::alloc::Global;
use std::collections::BTreeMap;
use std::marker::Model;

// The variables in the order in which they appeared; the number of each is its place. Contracts see the list.
#[derive(Drop)]
pub struct Variables {
    names: Vec<Name>,
    numbers: BTreeMap<Name, usize>,
}

impl Model for Variables {
    ghost use Rattle.std.specs.Prelude.{List, ℕ};
    ghost use Rattle.mls_typetext.specs.steps.Variables.{AreNumbers};

    ghost Value = { List (List ℕ) };

    ghost view = { λ v. v.names.items };

    ghost invariant = { λ v. AreNumbers v.names.items v.numbers };
}

impl Variables {
    // No variable.
    pub fn new(alloc: Global) -> Variables
        ensures { result ≡ [] }
    {
        Variables {
            names: Vec::new(alloc),
            numbers: BTreeMap::new(alloc),
        }
    }

    // How many variables there are.
    pub fn len(&self) -> usize
        ensures { result ≡ length self.now }
    {
        self.names.len()
    }

    // The number of a variable, which is the next one where it appears for the first time.
    pub fn number_of(&mut self, name: Name) -> Result<usize, Memory>
        ensures number { IfOk result (λ number. number ≡ position_or_len (bytes_eq name) self.old) }
        ensures names { OnOk result (self.new ≡ with_name self.old name) }
    {
        if let Some(number) = self.numbers.get(&name) {
            return Ok(*number);
        }
        let number = self.names.len();
        self.names.push(copy_of(&name)?)?;
        if self.numbers.insert(name, number).is_err() {
            self.names.pop();
            return Err(Memory);
        }
        Ok(number)
    }
}

fn copy_of(name: &Name) -> Result<Name, Memory>
    ensures { IfOk result (λ copy. copy ≡ name.now) }
{
    let copy = name.clone()?;
    Ok(copy)
}
