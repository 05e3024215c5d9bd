//! The pieces of the text, from left to right: the tree of the sets that are shown, with a stack of its own.
ghost use Rattle.std.specs.Prelude.{◌≡◌, ◌<◌, ◌++◌, reverse, length, get_or, None, IfOk, OnOk};
ghost use Rattle.mls_print.specs.declared.components.Item.TheVariants.{Show, ShowDomain};
ghost use Rattle.mls_print.specs.steps.Tables.{IsWhole};
ghost use Rattle.mls_print.specs.steps.Items.{row_is_alone};
ghost use Rattle.mls_print.specs.steps.Progress.{Advances, AreParens, IsItemBelow, IsLaidOut, IsPlan, IsSafe};

use crate::components::{Item, is_function_alone, items_of};
use crate::piece::{Layout, Piece};
use crate::row::{Row, Table};
use mls_automaton::automaton::Polarity;
use mls_base::memory::Memory;
use std::alloc::Global;

/// Lays out the tree of the sets that are shown, from the first set of the table on.
pub fn layout_of<'a>(alloc: Global, table: &Table<'a>) -> Result<Layout<'a>, Memory>
    requires { IsWhole table.now }
    ensures { IfOk result (λ layout. (plan : _) → IsPlan plan table.now → IsLaidOut plan layout) }
{
    let mut printer = Printer {
        items: vec![in alloc; Item::Show(Polarity::Positive, 0)]?,
        shown: vec![in alloc; None; table.rows.len()]?,
        pieces: Vec::new(alloc),
        sets: 0,
    };
    for _ in 0..usize::MAX {
        let Some(item) = printer.items.pop() else {
            return Ok(Layout {
                pieces: printer.pieces,
                sets: printer.sets,
            });
        };
        printer.take(alloc, table, item)?;
    }
    // No memory holds so many pieces.
    Err(Memory)
}

// The items that are left, the next last; for each set of the table its number in the text, if it is being shown; the
// pieces so far; and how many sets they show.
#[derive(Drop)]
struct Printer<'a> {
    items: Vec<Item<'a>>,
    shown: Vec<Option<usize>>,
    pieces: Vec<Piece<'a>>,
    sets: usize,
}

impl<'a> Printer<'a> {
    // Takes one item.
    fn take(&mut self, alloc: Global, table: &Table<'a>, item: Item<'a>) -> Result<(), Memory>
        requires table { IsWhole table.now }
        requires below { IsItemBelow (length table.now.rows.items) item }
        requires safe { IsSafe table.now self.old }
        ensures { OnOk result (Advances table.now item.entry self.old self.new) }
    {
        match item {
            Item::Tell(piece) => self.pieces.push(piece)?,
            Item::Leave(set) => self.shown[set] = None,
            Item::Show(polarity, set) => match self.shown[set] {
                Some(number) => self.pieces.push(Piece::Again(number))?,
                None => self.show(alloc, table, polarity, set)?,
            },
            Item::ShowDomain(polarity, set) => match self.shown[set] {
                Some(number) => self.pieces.push(Piece::Again(number))?,
                None => self.show_domain(alloc, table, polarity, set)?,
            },
        }
        Ok(())
    }

    // Begins a set that is not being shown.
    fn show(
        &mut self,
        alloc: Global,
        table: &Table<'a>,
        polarity: Polarity,
        set: usize,
    ) -> Result<(), Memory>
        requires table { IsWhole table.now }
        requires below { set < length table.now.rows.items }
        requires new { get_or self.old.shown.items set None ≡ None }
        requires safe { IsSafe table.now self.old }
        ensures { OnOk result (Advances table.now (Show polarity set) self.old self.new) }
    {
        self.pieces.push(Piece::Begins(self.sets))?;
        self.shown[set] = Some(self.sets);
        self.sets += 1;
        self.items.push(Item::Leave(set))?;
        let items = items_of(alloc, &table.rows[set], polarity)?;
        push_reversed(&mut self.items, items)?;
        Ok(())
    }

    // Begins a set that is not being shown, as a domain.
    fn show_domain(
        &mut self,
        alloc: Global,
        table: &Table<'a>,
        polarity: Polarity,
        set: usize,
    ) -> Result<(), Memory>
        requires table { IsWhole table.now }
        requires below { set < length table.now.rows.items }
        requires new { get_or self.old.shown.items set None ≡ None }
        requires safe { IsSafe table.now self.old }
        ensures { OnOk result (Advances table.now (ShowDomain polarity set) self.old self.new) }
    {
        let (opens, closes) = parens_of(&table.rows[set], self.sets);
        self.pieces.push(opens)?;
        self.items.push(Item::Tell(closes))?;
        self.show(alloc, table, polarity, set)?;
        Ok(())
    }
}

// The parentheses of a domain, which stand there in any case if it is a function alone.
fn parens_of<'a>(row: &Row<'a>, number: usize) -> (Piece<'a>, Piece<'a>)
    ensures { (sets : _) → AreParens (row_is_alone sets row.now) number result.0 result.1 }
{
    if is_function_alone(row) {
        return (Piece::Text(b"("), Piece::Text(b")"));
    }
    (Piece::Opens(number), Piece::Closes(number))
}

// Puts items on a stack, the first of them last.
fn push_reversed<'a>(stack: &mut Vec<Item<'a>>, mut items: Vec<Item<'a>>) -> Result<(), Memory>
    ensures { OnOk result (stack.new.items ≡ stack.old.items ++ reverse items.entry.items) }
{
    while let Some(item) = items.pop() {
        stack.push(item)?;
    }
    Ok(())
}
