//! The numbers of the variables of a type, and the sizes of its parts.
ghost use Rattle.std.specs.Prelude.{◌≡◌, IfOk, OnOk, bytes_eq};
ghost use Rattle.std.specs.List.{position_or_len};
ghost use Rattle.mls_typetext.specs.steps.Measuring.{Measures, add, add_total, arrow_size, first_size, first_total};
ghost use Rattle.mls_typetext.specs.steps.Measuring.{join_size, again_size, measured, named, nodes_in, other_sizes};
ghost use Rattle.mls_typetext.specs.steps.Measuring.{rec_size, size, state_of, without_size, without_total};

use crate::count::sum;
use crate::piece::{Item, Member, Size};
use crate::variables::Variables;
use mls_base::memory::Memory;
use mls_book::name::Name;
use std::alloc::Global;

/// The pieces of a type with the sizes of their parts, the size of the type, and how many variables it has.
#[derive(Drop)]
pub struct Measured {
    pub members: Vec<Member>,
    pub size: Size,
    pub vars: usize,
}

// What was measured so far.
#[derive(Drop)]
struct Measuring {
    // The variables in the order in which they appeared.
    names: Variables,
    // The sizes of the parts that belong to nothing yet, the nearest last.
    sizes: Vec<Size>,
    // How many nodes lie below the fields so far of each record that is open, the nearest last.
    totals: Vec<usize>,
    members: Vec<Member>,
}

impl Measuring {
    // Takes one piece of the type.
    fn take(&mut self, item: Item) -> Result<(), Memory>
        ensures { OnOk result (state_of self.new ≡ measured item (state_of self.old)) }
    {
        match item {
            Item::Variable(name) => self.take_variable(name),
            Item::Again(k) => self.add(Member::Again(k), again_size(k)),
            Item::Bool => self.add(Member::Bool, LEAF),
            Item::Int => self.add(Member::Int, LEAF),
            Item::Top => self.add(Member::Top, LEAF),
            Item::Bot => self.add(Member::Bot, LEAF),
            Item::Arrow => self.take_arrow(),
            Item::Join => self.take_join(),
            Item::Meet => self.take_meet(),
            Item::Rec => {
                let body = self.last_size();
                self.add(Member::Rec(body), rec_size(body))
            }
            Item::Record => {
                let total = self.last_total();
                self.add(Member::Record, record_size(total))
            }
            Item::Last => self.add_total(Member::Last, 0),
            Item::Field(label) => self.take_field(label),
        }
    }

    // Takes a variable.
    fn take_variable(&mut self, name: Name) -> Result<(), Memory>
        ensures { OnOk result (state_of self.new ≡ measured (Item.Variable name) (state_of self.old)) }
    {
        let number = self.number(name)?;
        self.add(Member::Var(number), LEAF)
    }

    // Takes a function.
    fn take_arrow(&mut self) -> Result<(), Memory>
        ensures { OnOk result (state_of self.new ≡ measured Item.Arrow (state_of self.old)) }
    {
        let (domain, codomain) = self.two_sizes();
        self.add(
            Member::Arrow(domain, codomain),
            arrow_size(domain, codomain)?,
        )
    }

    // Takes a join.
    fn take_join(&mut self) -> Result<(), Memory>
        ensures { OnOk result (state_of self.new ≡ measured Item.Join (state_of self.old)) }
    {
        let (left, right) = self.two_sizes();
        self.add(Member::Join(left, right), join_size(left, right)?)
    }

    // Takes a meet.
    fn take_meet(&mut self) -> Result<(), Memory>
        ensures { OnOk result (state_of self.new ≡ measured Item.Meet (state_of self.old)) }
    {
        let (left, right) = self.two_sizes();
        self.add(Member::Meet(left, right), join_size(left, right)?)
    }

    // Takes a field.
    fn take_field(&mut self, label: Name) -> Result<(), Memory>
        ensures { OnOk result (state_of self.new ≡ measured (Item.Field label) (state_of self.old)) }
    {
        let size = self.last_size();
        let total = self.last_total();
        self.add_total(Member::Field(label, size), sum(nodes(size)?, total)?)
    }

    // The number of a variable, which is the next one where it appears for the first time.
    fn number(&mut self, name: Name) -> Result<usize, Memory>
        ensures number { IfOk result (λ number. number ≡ position_or_len (bytes_eq name) (state_of self.old).names) }
        ensures names { OnOk result (state_of self.new ≡ named name (state_of self.old)) }
    {
        self.names.number_of(name)
    }

    // Adds a piece behind the pieces of its parts, and the size of the part that it makes.
    fn add(&mut self, member: Member, size: Size) -> Result<(), Memory>
        ensures { OnOk result (state_of self.new ≡ add member size (state_of self.old)) }
    {
        self.members.push(member)?;
        self.sizes.push(size)?;
        Ok(())
    }

    // Adds a piece of a record, and how many nodes lie below its fields up to here.
    fn add_total(&mut self, member: Member, total: usize) -> Result<(), Memory>
        ensures { OnOk result (state_of self.new ≡ add_total member total (state_of self.old)) }
    {
        self.members.push(member)?;
        self.totals.push(total)?;
        Ok(())
    }

    // Takes the nearest size, which is always there.
    fn last_size(&mut self) -> Size
        ensures size { result ≡ first_size (state_of self.old).sizes }
        ensures others { state_of self.new ≡ without_size (state_of self.old) }
    {
        match self.sizes.pop() {
            Some(size) => size,
            None => NOTHING,
        }
    }

    // Takes the two nearest sizes, the nearest as the second.
    fn two_sizes(&mut self) -> (Size, Size)
        ensures first { result.0 ≡ first_size (other_sizes (state_of self.old).sizes) }
        ensures second { result.1 ≡ first_size (state_of self.old).sizes }
        ensures others { state_of self.new ≡ without_size (without_size (state_of self.old)) }
    {
        let second = self.last_size();
        let first = self.last_size();
        (first, second)
    }

    // Takes the nearest total, which is always there.
    fn last_total(&mut self) -> usize
        ensures total { result ≡ first_total (state_of self.old).totals }
        ensures others { state_of self.new ≡ without_total (state_of self.old) }
    {
        match self.totals.pop() {
            Some(total) => total,
            None => 0,
        }
    }
}

// The size of a variable or a base type.
const LEAF: Size = Size {
    here: 1,
    under: 0,
    again: None,
};

// No node.
const NOTHING: Size = Size {
    here: 0,
    under: 0,
    again: None,
};

// How many nodes a part of this size has in all.
fn nodes(part: Size) -> Result<usize, Memory>
    ensures { IfOk result (λ count. count ≡ nodes_in part) }
{
    sum(part.here, part.under)
}

// The size of a name of a `rec` around it.
fn again_size(k: usize) -> Size
    ensures { result ≡ again_size k }
{
    Size {
        here: 0,
        under: 0,
        again: Some(k),
    }
}

// The size of a function.
fn arrow_size(domain: Size, codomain: Size) -> Result<Size, Memory>
    ensures { IfOk result (λ size. size ≡ arrow_size domain codomain) }
{
    let under = sum(nodes(domain)?, nodes(codomain)?)?;
    Ok(Size {
        here: 1,
        under,
        again: None,
    })
}

// The size of a join or a meet.
fn join_size(left: Size, right: Size) -> Result<Size, Memory>
    ensures { IfOk result (λ size. size ≡ join_size left right) }
{
    let here = sum(sum(left.here, right.here)?, 1)?;
    let under = sum(left.under, right.under)?;
    Ok(Size {
        here,
        under,
        again: None,
    })
}

// The size of a `rec` with this body.
fn rec_size(body: Size) -> Size
    ensures { result ≡ rec_size body }
{
    let again = match body.again {
        Some(k) if k > 0 => Some(k - 1),
        _ => None,
    };
    Size {
        here: body.here,
        under: body.under,
        again,
    }
}

// The size of a record with so many nodes below it.
fn record_size(total: usize) -> Size
    ensures { result ≡ size 1 total }
{
    Size {
        here: 1,
        under: total,
        again: None,
    }
}

/// The pieces of a type with the sizes of their parts, where the type's own pieces are given from the last to the
/// first.
pub fn measure(alloc: Global, items: Vec<Item>) -> Result<Measured, Memory>
    ensures { IfOk result (λ m. Measures items.items m) }
{
    let mut measuring = Measuring {
        names: Variables::new(alloc),
        sizes: Vec::new(alloc),
        totals: Vec::new(alloc),
        members: Vec::with_capacity(alloc, items.len())?,
    };
    let mut left = items;
    while let Some(item) = left.pop() {
        measuring.take(item)?;
    }
    let size = measuring.last_size();
    Ok(Measured {
        members: measuring.members,
        size,
        vars: measuring.names.len(),
    })
}
