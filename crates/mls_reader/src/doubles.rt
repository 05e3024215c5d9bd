//! Names and labels that a module gives twice.
ghost use Rattle.std.specs.Prelude.{◌≡◌, List, [], ◌∷◌, reverse, IfOk, OnOk};
ghost use Rattle.mls_reader.specs.declared.piece.Event.{Event as Next};
ghost use Rattle.mls_reader.specs.steps.GivenTwice.{doubles_in, first_of, fault_before, fault_unless, AddsLabel};

use crate::names::Names;
use crate::piece::Event;
use crate::spelling::Spelling;
use mls_base::memory::Memory;
use mls_grammar::fault::Fault;
use std::alloc::Global;

// What was given so far: the imported modules, the bound names, and the labels of the records that are open, the
// innermost record last.
#[derive(Drop)]
struct Given<'a> {
    imports: Names<'a>,
    bindings: Names<'a>,
    records: Vec<Names<'a>>,
}

impl<'a> Given<'a> {
    // Takes what is given next, and tells the fault if it was given before.
    fn take(&mut self, alloc: Global, event: Event<'a>) -> Result<Option<Fault>, Memory>
        ensures { IfOk result (λ fault. (rest : List Next)
            → doubles_in self.old.imports self.old.bindings (reverse self.old.records.items) (event.entry ∷ rest)
            ≡ fault_before fault (doubles_in self.new.imports self.new.bindings
            (reverse self.new.records.items) rest)) }
    {
        match event {
            Event::Import(at, name) => {
                let new = self.imports.add(name)?;
                Ok(fault_unless(new, Fault::DuplicateImport(at)))
            }
            Event::Binding(at, name) => {
                let new = self.bindings.add(name)?;
                Ok(fault_unless(new, Fault::DuplicateBinding(at)))
            }
            Event::Label(at, name) => {
                let new = self.add_label(name)?;
                Ok(fault_unless(new, Fault::DuplicateLabel(at)))
            }
            Event::Open => {
                self.records.push(Names::new(alloc))?;
                Ok(None)
            }
            Event::Close => {
                self.records.pop();
                Ok(None)
            }
        }
    }

    // Adds a label to the innermost record that is open, and says whether it is new there.
    fn add_label(&mut self, name: Spelling<'a>) -> Result<bool, Memory>
        ensures labels { IfOk result (AddsLabel name.entry (reverse self.old.records.items)
            (reverse self.new.records.items)) }
        ensures others { OnOk result ((self.new.imports ≡ self.old.imports) × (self.new.bindings ≡ self.old.bindings)) }
    {
        match self.records.pop() {
            None => Ok(true),
            Some(mut labels) => {
                let new = labels.add(name)?;
                self.records.push(labels)?;
                Ok(new)
            }
        }
    }
}

// The fault of a name, unless it is new.
fn fault_unless(new: bool, fault: Fault) -> Option<Fault>
    ensures { result ≡ fault_unless new fault }
{
    if new { None } else { Some(fault) }
}

/// The fault of the first name or label that is given a second time.
pub fn first_double<'a>(alloc: Global, events: Vec<Event<'a>>) -> Result<Option<Fault>, Memory>
    ensures { IfOk result (λ double. double ≡ first_of (doubles_in [] [] [] events.entry.items)) }
{
    let mut given = Given {
        imports: Names::new(alloc),
        bindings: Names::new(alloc),
        records: Vec::new(alloc),
    };
    for event in events {
        if let Some(fault) = given.take(alloc, event)? {
            return Ok(Some(fault));
        }
    }
    Ok(None)
}
