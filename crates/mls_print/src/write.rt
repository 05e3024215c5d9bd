//! The bytes of the pieces, with names by first appearance.
ghost use Rattle.std.specs.Prelude.{◌≡◌, ◌+◌, ◌^◌, ◌<◌, ◌≤◌, ◌++◌, codes, length, get_or, false, map, All, None};
ghost use Rattle.std.specs.Prelude.{IfOk, OnOk};
ghost use Rattle.mls_print.specs.Keys.{variable, recursion};
ghost use Rattle.mls_print.specs.Pieces.{is_called, text_of};
ghost use Rattle.mls_print.specs.steps.Writing.{HasStateBelow, HasSetBelow, piece_of, GetsNumber, NamesKey, Writes};

use crate::naming::write_name;
use crate::piece::{Layout, Piece};
use mls_base::memory::Memory;
use std::alloc::Global;

/// Writes the text of the pieces, in which variables are those of so many states.
pub fn text_of(alloc: Global, layout: &Layout, states: usize) -> Result<Vec<u8>, Memory>
    requires states { All (HasStateBelow states) layout.now.pieces.items }
    requires sets { All (HasSetBelow layout.now.sets) layout.now.pieces.items }
    ensures { IfOk result (λ text. text.items ≡ text_of (map piece_of layout.now.pieces.items)) }
{
    let recursive = named_again(alloc, layout)?;
    let mut writer = Writer {
        text: Vec::new(alloc),
        variables: vec![in alloc; None; states]?,
        recursions: vec![in alloc; None; layout.sets]?,
        named: 0,
    };
    for piece in layout.pieces.iter() {
        writer.write(alloc, recursive.as_slice(), *piece)?;
    }
    Ok(writer.text)
}

// For each set that the text shows whether a piece names it again.
fn named_again(alloc: Global, layout: &Layout) -> Result<Vec<bool>, Memory>
    requires { All (HasSetBelow layout.now.sets) layout.now.pieces.items }
    ensures size { IfOk result (λ again. length again.items ≡ layout.now.sets) }
    ensures again { IfOk result (λ again. (j : _) → get_or again.items j false
        ≡ is_called (map piece_of layout.now.pieces.items) j) }
{
    let mut again = vec![in alloc; false; layout.sets]?;
    for piece in layout.pieces.iter() {
        if let Piece::Again(set) = piece {
            again[*set] = true;
        }
    }
    Ok(again)
}

// The text so far, the numbers of the names that are in it, and how many names those are.
#[derive(Drop)]
struct Writer {
    text: Vec<u8>,
    variables: Vec<Option<usize>>,
    recursions: Vec<Option<usize>>,
    named: usize,
}

impl Writer {
    // Writes a piece, where these sets have a `rec`.
    fn write(&mut self, alloc: Global, recursive: &[bool], piece: Piece) -> Result<(), Memory>
        requires state { HasStateBelow (length self.old.variables.items) piece }
        requires set { HasSetBelow (length self.old.recursions.items) piece }
        requires sets { length recursive.now ≡ length self.old.recursions.items }
        requires fits { self.old.named ≤ length self.old.text.items }
        ensures { OnOk result (Writes (λ j. get_or recursive.now j false) (piece_of piece.entry) self.old self.new) }
    {
        match piece {
            Piece::Text(bytes) => self.text.extend_from_slice(bytes)?,
            Piece::Variable(state) => self.write_variable(alloc, state)?,
            Piece::Again(set) => self.write_recursion(alloc, set)?,
            Piece::Begins(set) => {
                if recursive[set] {
                    self.write_binder(alloc, set)?;
                }
            }
            Piece::Opens(set) => {
                if recursive[set] {
                    self.text.push(b'(')?;
                }
            }
            Piece::Closes(set) => {
                if recursive[set] {
                    self.text.push(b')')?;
                }
            }
        }
        Ok(())
    }

    // Writes the `rec` of a set.
    fn write_binder(&mut self, alloc: Global, set: usize) -> Result<(), Memory>
        requires in_range { set < length self.old.recursions.items }
        requires fits { self.old.named ≤ length self.old.text.items }
        ensures { OnOk result (NamesKey (λ name. codes "rec " ++ (name
            ++ codes ". ")) (recursion set) self.old self.new) }
    {
        self.text.extend_from_slice(b"rec ")?;
        self.write_recursion(alloc, set)?;
        self.text.extend_from_slice(b". ")?;
        Ok(())
    }

    // Writes the name of the variable of a state.
    fn write_variable(&mut self, alloc: Global, state: usize) -> Result<(), Memory>
        requires in_range { state < length self.old.variables.items }
        requires fits { self.old.named ≤ length self.old.text.items }
        ensures { OnOk result (NamesKey (λ name. name) (variable state) self.old self.new) }
    {
        let number = number_of(&mut self.variables, state, &mut self.named);
        write_name(alloc, &mut self.text, number)?;
        Ok(())
    }

    // Writes the name of a set that has a `rec`.
    fn write_recursion(&mut self, alloc: Global, set: usize) -> Result<(), Memory>
        requires in_range { set < length self.old.recursions.items }
        requires fits { self.old.named ≤ length self.old.text.items }
        ensures { OnOk result (NamesKey (λ name. name) (recursion set) self.old self.new) }
    {
        let number = number_of(&mut self.recursions, set, &mut self.named);
        write_name(alloc, &mut self.text, number)?;
        Ok(())
    }
}

// The number of the name at this index; if there is none, it is the next number.
fn number_of(numbers: &mut Vec<Option<usize>>, index: usize, named: &mut usize) -> usize
    requires in_range { index < length numbers.old.items }
    requires fits { named.old + 1 < 2 ^ 64 }
    ensures { GetsNumber
        (get_or numbers.old.items index None) index named.old numbers.old.items numbers.new.items named.new result }
{
    match numbers[index] {
        Some(number) => number,
        None => {
            let number = *named;
            numbers[index] = Some(number);
            *named = number + 1;
            number
        }
    }
}
