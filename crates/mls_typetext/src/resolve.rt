//! The recursive names and the faults of the tree of a type.
ghost use Rattle.std.specs.Prelude.{◌≡◌, ◌≢◌, ◌^◌, ◌<◌, [], ◌∷◌, ◌++◌, Some, IfOk, IfErr, OnOk};
ghost use Rattle.mls_typetext.specs.declared.piece.Piece.TheVariants as piece;
ghost use Rattle.mls_typetext.specs.declared.resolve.NameTask.TheVariants as task;
ghost use Rattle.mls_typetext.specs.steps.NameMachine.{whole_place, inside, domain, body, nothing_known, told, noted};
ghost use Rattle.mls_typetext.specs.steps.NameMachine.{naming, without_labels, with_label, fault_if, name_fault};
ghost use Rattle.mls_typetext.specs.steps.NameMachine.{name_item, notes, opened};
ghost use Rattle.mls_typetext.specs.steps.NameReaders.{tasks_of, known_of, GivesItems, GivesFault};

use crate::labels::Labels;
use crate::piece::{Item, Piece};
use crate::scheme::TypeFault;
use mls_base::memory::Memory;
use mls_book::name::Name;
use std::alloc::Global;
use std::collections::BTreeMap;

// Where a part of a type stands: the sign of its place, how many functions and records are around it, and how many
// `rec`s.
#[derive(Clone, Copy)]
struct NamePlace {
    is_positive: bool,
    guards: usize,
    depth: usize,
}

// What is still to come, from the end of the text to its front.
#[derive(Drop)]
enum NameTask {
    // The pieces of a part, or of the fields of a record, at this place.
    Part(NamePlace),
    // The front of a `rec`: its name means again what it meant around it.
    Leave(Name, Option<NamePlace>),
    // The place of a fault.
    Note(TypeFault),
}

// A reader of pieces from the last to the first.
#[derive(Drop)]
struct NameReader {
    // The next task is the last.
    tasks: Vec<NameTask>,
    // The `rec`s around the place that is reached, with the places of their bodies.
    recs: BTreeMap<Name, NamePlace>,
    // The labels of the record whose fields are read, or were read last.
    labels: Labels,
    // The fault that stands first in what was read, since it was noted last.
    fault: Option<TypeFault>,
    // The items, from the last to the first.
    items: Vec<Item>,
}

/// The items of the tree of these pieces, from the last to the first; or the first fault of the tree.
pub fn resolve(alloc: Global, pieces: Vec<Piece>) -> Result<Vec<Item>, TypeFault>
    ensures items { IfOk result (λ found. GivesItems pieces.items found.items) }
    ensures fault { IfErr result (λ fault. fault ≢ TypeFault.Memory → GivesFault pieces.items fault) }
{
    let mut left = pieces;
    let mut reader = NameReader::new(alloc, left.len())?;
    while let Some(task) = reader.tasks.pop() {
        match task {
            // There is a piece for each part.
            NameTask::Part(place) => {
                if let Some(piece) = left.pop() {
                    reader.read(piece, place)?;
                }
            }
            NameTask::Leave(name, outer) => reader.leave(name, outer)?,
            NameTask::Note(fault) => reader.fault = Some(fault),
        }
    }
    match reader.fault {
        Some(fault) => Err(fault),
        None => Ok(reader.items),
    }
}

impl NamePlace {
    // The place of a whole type.
    fn of_whole() -> NamePlace
        ensures { result ≡ whole_place }
    {
        NamePlace {
            is_positive: true,
            guards: 0,
            depth: 0,
        }
    }

    // The place of what stands in a record, or in the codomain of a function, of this place.
    fn inside(self) -> NamePlace
        requires { self.guards < 2 ^ 63 }
        ensures { result ≡ inside self }
    {
        NamePlace {
            guards: self.guards + 1,
            ..self
        }
    }

    // The place of the domain of a function of this place.
    fn domain(self) -> NamePlace
        requires { self.guards < 2 ^ 63 }
        ensures { result ≡ domain self }
    {
        NamePlace {
            is_positive: !self.is_positive,
            guards: self.guards + 1,
            ..self
        }
    }

    // The place of the body of a `rec` of this place.
    fn body(self) -> NamePlace
        requires { self.depth < 2 ^ 63 }
        ensures { result ≡ body self }
    {
        NamePlace {
            depth: self.depth + 1,
            ..self
        }
    }

    // The fault of a name at this place, where it means a `rec` whose body has that place.
    fn name_fault(self, at: usize, meaning: Option<NamePlace>) -> Option<TypeFault>
        ensures { result ≡ name_fault self at meaning }
    {
        let body = meaning?;
        if body.guards == self.guards {
            Some(TypeFault::Unguarded(at))
        } else {
            fault_if(
                body.is_positive != self.is_positive,
                TypeFault::Contravariant(at),
            )
        }
    }

    // The item of a name at this place. There are no more `rec`s around a body than around what stands in it.
    fn name_item(self, name: Name, meaning: Option<NamePlace>) -> Item
        ensures { result ≡ name_item self name meaning }
    {
        match meaning {
            None => Item::Variable(name),
            Some(body) => Item::Again(self.depth.saturating_sub(body.depth)),
        }
    }
}

// The fault, where there is one.
fn fault_if(is_wrong: bool, fault: TypeFault) -> Option<TypeFault>
    ensures { result ≡ fault_if is_wrong fault }
{
    if is_wrong { Some(fault) } else { None }
}

impl NameReader {
    // At the end of a whole type of so many pieces.
    fn new(alloc: Global, pieces: usize) -> Result<NameReader, Memory>
        ensures { IfOk result (λ reader. (tasks_of reader ≡ task.Part whole_place ∷ [])
            × (known_of reader ≡ nothing_known)) }
    {
        let mut tasks = Vec::new(alloc);
        tasks.push(NameTask::Part(NamePlace::of_whole()))?;
        Ok(NameReader {
            tasks,
            recs: BTreeMap::new(alloc),
            labels: Labels::new(alloc),
            fault: None,
            items: Vec::with_capacity(alloc, pieces)?,
        })
    }

    // Reads the last piece of the part at this place.
    fn read(&mut self, piece: Piece, place: NamePlace) -> Result<(), Memory>
        requires guards { place.guards < 2 ^ 63 }
        requires depth { place.depth < 2 ^ 63 }
        ensures tasks { OnOk result (tasks_of self.new
            ≡ (opened piece place (tasks_of self.old) (known_of self.old)).tasks) }
        ensures known { OnOk result (known_of self.new
            ≡ (opened piece place (tasks_of self.old) (known_of self.old)).known) }
    {
        match piece {
            Piece::Name(at, name) => self.read_name(at, name, place),
            Piece::Bool => self.tell(Item::Bool),
            Piece::Int => self.tell(Item::Int),
            Piece::Top(at) => {
                self.note(fault_if(place.is_positive, TypeFault::NotPolar(at)));
                self.tell(Item::Top)
            }
            Piece::Bot(at) => {
                self.note(fault_if(!place.is_positive, TypeFault::NotPolar(at)));
                self.tell(Item::Bot)
            }
            Piece::Arrow => self.read_arrow(place),
            Piece::Join(at) => {
                let fault = fault_if(!place.is_positive, TypeFault::NotPolar(at));
                self.read_pair(Item::Join, fault, place)
            }
            Piece::Meet(at) => {
                let fault = fault_if(place.is_positive, TypeFault::NotPolar(at));
                self.read_pair(Item::Meet, fault, place)
            }
            Piece::Rec(name) => self.read_rec(name, place),
            Piece::Record => self.read_record(place),
            Piece::Last => self.tell(Item::Last),
            Piece::Field(at, label) => self.read_field(at, label, place),
        }
    }

    // Reads a name.
    fn read_name(&mut self, at: usize, name: Name, place: NamePlace) -> Result<(), Memory>
        ensures tasks { OnOk result (tasks_of self.new ≡ tasks_of self.old) }
        ensures known { OnOk result (known_of self.new
            ≡ (opened (piece.Name at name) place (tasks_of self.old) (known_of self.old)).known) }
    {
        let meaning = self.recs.get(&name).copied();
        self.note(place.name_fault(at, meaning));
        self.tell(place.name_item(name, meaning))
    }

    // Reads a function: its codomain is behind its domain.
    fn read_arrow(&mut self, place: NamePlace) -> Result<(), Memory>
        requires { place.guards < 2 ^ 63 }
        ensures tasks { OnOk result (tasks_of self.new ≡ task.Part (inside place) ∷ task.Part (domain place)
            ∷ tasks_of self.old) }
        ensures known { OnOk result (known_of self.new
            ≡ (opened piece.Arrow place (tasks_of self.old) (known_of self.old)).known) }
    {
        self.plan(NameTask::Part(place.domain()))?;
        self.plan(NameTask::Part(place.inside()))?;
        self.tell(Item::Arrow)
    }

    // Reads a join or a meet: its fault stands between its parts.
    fn read_pair(
        &mut self,
        item: Item,
        fault: Option<TypeFault>,
        place: NamePlace,
    ) -> Result<(), Memory>
        ensures tasks { OnOk result (tasks_of self.new ≡ task.Part place ∷ notes fault ++ task.Part place
            ∷ tasks_of self.old) }
        ensures known { OnOk result (known_of self.new ≡ told item (known_of self.old)) }
    {
        self.plan(NameTask::Part(place))?;
        self.plan_note(fault)?;
        self.plan(NameTask::Part(place))?;
        self.tell(item)
    }

    // Reads a `rec`: in its body the name means the body.
    fn read_rec(&mut self, name: Name, place: NamePlace) -> Result<(), Memory>
        requires { place.depth < 2 ^ 63 }
        ensures tasks { OnOk result (tasks_of self.new
            ≡ (opened (piece.Rec name) place (tasks_of self.old) (known_of self.old)).tasks) }
        ensures known { OnOk result (known_of self.new
            ≡ (opened (piece.Rec name) place (tasks_of self.old) (known_of self.old)).known) }
    {
        let body = place.body();
        let outer = self.bind(name.clone()?, body)?;
        self.plan(NameTask::Leave(name, outer))?;
        self.plan(NameTask::Part(body))?;
        self.tell(Item::Rec)
    }

    // Reads the end of a record, which has no label yet.
    fn read_record(&mut self, place: NamePlace) -> Result<(), Memory>
        requires { place.guards < 2 ^ 63 }
        ensures tasks { OnOk result (tasks_of self.new ≡ task.Part (inside place) ∷ tasks_of self.old) }
        ensures known { OnOk result (known_of self.new
            ≡ (opened piece.Record place (tasks_of self.old) (known_of self.old)).known) }
    {
        self.forget_labels();
        self.plan(NameTask::Part(place.inside()))?;
        self.tell(Item::Record)
    }

    // Reads a field: the fields behind it stand behind its type, and its own fault before its type.
    fn read_field(&mut self, at: usize, label: Name, place: NamePlace) -> Result<(), Memory>
        ensures tasks { OnOk result (tasks_of self.new
            ≡ (opened (piece.Field at label) place (tasks_of self.old) (known_of self.old)).tasks) }
        ensures known { OnOk result (known_of self.new
            ≡ (opened (piece.Field at label) place (tasks_of self.old) (known_of self.old)).known) }
    {
        let is_double = self.add_label(label.clone()?)?;
        self.plan_note(fault_if(is_double, TypeFault::DuplicateLabel(at)))?;
        self.plan(NameTask::Part(place))?;
        self.plan(NameTask::Part(place))?;
        self.tell(Item::Field(label))
    }

    // Leaves a `rec`: its name means again what it meant around it.
    fn leave(&mut self, name: Name, outer: Option<NamePlace>) -> Result<(), Memory>
        ensures tasks { OnOk result (tasks_of self.new ≡ tasks_of self.old) }
        ensures known { OnOk result (known_of self.new ≡ naming name outer (known_of self.old)) }
    {
        match outer {
            Some(body) => {
                self.bind(name, body)?;
            }
            None => {
                self.recs.remove(&name);
            }
        }
        Ok(())
    }

    // From here on the name means the `rec` whose body has this place; tells what it meant before.
    fn bind(&mut self, name: Name, body: NamePlace) -> Result<Option<NamePlace>, Memory>
        ensures outer { IfOk result (λ outer. outer ≡ (known_of self.old).recs name) }
        ensures tasks { OnOk result (tasks_of self.new ≡ tasks_of self.old) }
        ensures known { OnOk result (known_of self.new ≡ naming name (Some body) (known_of self.old)) }
    {
        let outer = self.recs.insert(name, body)?;
        Ok(outer)
    }

    // From here on the record has no label.
    fn forget_labels(&mut self)
        ensures tasks { tasks_of self.new ≡ tasks_of self.old }
        ensures known { known_of self.new ≡ without_labels (known_of self.old) }
    {
        self.labels.clear();
    }

    // Adds a label to those of the record, and says whether it was there.
    fn add_label(&mut self, label: Name) -> Result<bool, Memory>
        ensures double { IfOk result (λ double. double ≡ (known_of self.old).labels label) }
        ensures tasks { OnOk result (tasks_of self.new ≡ tasks_of self.old) }
        ensures known { OnOk result (known_of self.new ≡ with_label label (known_of self.old)) }
    {
        let is_new = self.labels.add(label)?;
        Ok(!is_new)
    }

    // Adds an item.
    fn tell(&mut self, item: Item) -> Result<(), Memory>
        ensures tasks { OnOk result (tasks_of self.new ≡ tasks_of self.old) }
        ensures known { OnOk result (known_of self.new ≡ told item (known_of self.old)) }
    {
        self.items.push(item)?;
        Ok(())
    }

    // Notes a fault of the place that is reached, where there is one.
    fn note(&mut self, fault: Option<TypeFault>)
        ensures tasks { tasks_of self.new ≡ tasks_of self.old }
        ensures known { known_of self.new ≡ noted fault (known_of self.old) }
    {
        if fault.is_some() {
            self.fault = fault;
        }
    }

    // Makes this the next task.
    fn plan(&mut self, task: NameTask) -> Result<(), Memory>
        ensures tasks { OnOk result (tasks_of self.new ≡ task ∷ tasks_of self.old) }
        ensures known { OnOk result (known_of self.new ≡ known_of self.old) }
    {
        self.tasks.push(task)?;
        Ok(())
    }

    // Makes it the next task to note this fault, where there is one.
    fn plan_note(&mut self, fault: Option<TypeFault>) -> Result<(), Memory>
        ensures tasks { OnOk result (tasks_of self.new ≡ notes fault ++ tasks_of self.old) }
        ensures known { OnOk result (known_of self.new ≡ known_of self.old) }
    {
        match fault {
            Some(fault) => self.plan(NameTask::Note(fault)),
            None => Ok(()),
        }
    }
}
