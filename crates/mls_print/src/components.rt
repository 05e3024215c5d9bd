//! The components of a set, in the order of the text.
ghost use Rattle.std.specs.Prelude.{◌≡◌, ◌++◌, [], ◌∷◌, map, codes, option_map, IfOk, OnOk};
ghost use Rattle.mls_print.specs.steps.Items.{items_told, components_told, has_more, function_component};
ghost use Rattle.mls_print.specs.steps.Items.{variable_items, push_field, push_items, row_components, row_items};
ghost use Rattle.mls_print.specs.steps.Items.{row_is_alone};
ghost use Rattle.mls_print.specs.steps.Printing.{bit_items, component_items, field_items, function_items};
ghost use Rattle.mls_print.specs.steps.Printing.{record_items, text};
ghost use Rattle.mls_print.specs.steps.Tables.{arms_of, labelled};
ghost use Rattle.mls_print.specs.Pieces.{separator};

use crate::piece::Piece;
use crate::row::{Row, RowField};
use mls_automaton::automaton::Polarity;
use mls_base::memory::Memory;
use std::alloc::Global;

/// What is still to do, in the order of the text.
#[derive(Clone, Copy)]
pub enum Item<'a> {
    /// A piece is told.
    Tell(Piece<'a>),
    /// A set of the table is shown at this polarity.
    Show(Polarity, usize),
    /// The same as a domain.
    ShowDomain(Polarity, usize),
    /// The components of this set of the table are over.
    Leave(usize),
}

/// Whether a set shows a function alone.
pub fn is_function_alone(row: &Row) -> bool
    ensures { (sets : _) → result ≡ row_is_alone sets row.now }
{
    row.function.is_some() && !has_more(row)
}

// Whether a set shows something beside its function.
fn has_more(row: &Row) -> bool
    ensures { result ≡ has_more row.now }
{
    !row.variables.is_empty() || row.boolean || row.integer || row.fields.is_some()
}

/// The items of a set: its components with what stands between them, or `bot` or `top` if it has none.
pub fn items_of<'a>(
    alloc: Global,
    row: &Row<'a>,
    polarity: Polarity,
) -> Result<Vec<Item<'a>>, Memory>
    ensures { IfOk result (λ items. (sets around : _) → items_told sets around items.items
        ≡ row_items sets around polarity row.now) }
{
    let components = components_of(alloc, row, polarity)?;
    let items = joined(alloc, components.as_slice(), polarity)?;
    Ok(items)
}

// Components one after the other, with what stands between them.
fn joined<'a>(
    alloc: Global,
    components: &[Vec<Item<'a>>],
    polarity: Polarity,
) -> Result<Vec<Item<'a>>, Memory>
    ensures { IfOk result (λ items. (sets around : _) → items_told sets around items.items
        ≡ component_items polarity (components_told sets around components.now)) }
{
    let mut items = Vec::new(alloc);
    for (i, component) in components.iter().enumerate() {
        add_component(&mut items, i == 0, component.as_slice(), polarity)?;
    }
    if components.is_empty() {
        items.push(Item::Tell(Piece::Text(word_for_none(polarity))))?;
    }
    Ok(items)
}

// One more component, with what stands before it if it is not the first.
fn add_component<'a>(
    items: &mut Vec<Item<'a>>,
    is_first: bool,
    component: &[Item<'a>],
    polarity: Polarity,
) -> Result<(), Memory>
    ensures { OnOk result ((sets around : _) → items_told sets around items.new.items
        ≡ items_told sets around items.old.items
        ++ push_items polarity is_first (items_told sets around component.now)) }
{
    if !is_first {
        items.push(Item::Tell(Piece::Text(separator_of(polarity))))?;
    }
    items.extend_from_slice(component)?;
    Ok(())
}

// What stands between two components.
fn separator_of(polarity: Polarity) -> &'static [u8]
    ensures { result.now ≡ separator polarity }
{
    match polarity {
        Polarity::Positive => b" | ",
        Polarity::Negative => b" & ",
    }
}

// What stands for no component.
fn word_for_none(polarity: Polarity) -> &'static [u8]
    ensures { text result.now ∷ [] ≡ component_items polarity [] }
{
    match polarity {
        Polarity::Positive => b"bot",
        Polarity::Negative => b"top",
    }
}

// The components of a set.
fn components_of<'a>(
    alloc: Global,
    row: &Row<'a>,
    polarity: Polarity,
) -> Result<Vec<Vec<Item<'a>>>, Memory>
    ensures { IfOk result (λ components. (sets around : _) → components_told sets around components.items
        ≡ row_components sets around polarity row.now) }
{
    let mut components = Vec::new(alloc);
    add_variables(alloc, &mut components, row.variables.as_slice())?;
    add_word(alloc, &mut components, row.boolean, b"bool")?;
    add_word(alloc, &mut components, row.integer, b"int")?;
    add_function(alloc, &mut components, row, polarity)?;
    add_record(alloc, &mut components, &row.fields, polarity)?;
    Ok(components)
}

// The names of variables.
fn add_variables<'a>(
    alloc: Global,
    components: &mut Vec<Vec<Item<'a>>>,
    variables: &[usize],
) -> Result<(), Memory>
    ensures { OnOk result ((sets around : _) → components_told sets around components.new.items
        ≡ components_told sets around components.old.items ++ variable_items variables.now) }
{
    for s in variables {
        components.push(vec![in alloc; Item::Tell(Piece::Variable(*s))]?)?;
    }
    Ok(())
}

// A word, if it is there.
fn add_word<'a>(
    alloc: Global,
    components: &mut Vec<Vec<Item<'a>>>,
    is_there: bool,
    word: &'a [u8],
) -> Result<(), Memory>
    ensures { OnOk result ((sets around : _) → components_told sets around components.new.items
        ≡ components_told sets around components.old.items ++ bit_items word.now is_there) }
{
    if is_there {
        components.push(vec![in alloc; Item::Tell(Piece::Text(word))]?)?;
    }
    Ok(())
}

// The function, in parentheses if it is one of several components.
fn add_function<'a>(
    alloc: Global,
    components: &mut Vec<Vec<Item<'a>>>,
    row: &Row<'a>,
    polarity: Polarity,
) -> Result<(), Memory>
    ensures { OnOk result ((sets around : _) → components_told sets around components.new.items
        ≡ components_told sets around components.old.items
        ++ function_component (has_more row.now) (function_items around polarity (arms_of sets row.now.function))) }
{
    if let Some(arms) = row.function {
        let domain = Item::ShowDomain(polarity.opposite(), arms.domain);
        let arrow = Item::Tell(Piece::Text(b" -> "));
        let codomain = Item::Show(polarity, arms.codomain);
        if has_more(row) {
            let opens = Item::Tell(Piece::Text(b"("));
            let closes = Item::Tell(Piece::Text(b")"));
            components.push(vec![in alloc; opens, domain, arrow, codomain, closes]?)?;
        } else {
            components.push(vec![in alloc; domain, arrow, codomain]?)?;
        }
    }
    Ok(())
}

// The record, if there is one.
fn add_record<'a>(
    alloc: Global,
    components: &mut Vec<Vec<Item<'a>>>,
    fields: &Option<Vec<RowField<'a>>>,
    polarity: Polarity,
) -> Result<(), Memory>
    ensures { OnOk result ((sets around : _) → components_told sets around components.new.items
        ≡ components_told sets around components.old.items ++ record_items around polarity (option_map
        (λ all. map (labelled sets) all.items) fields.now)) }
{
    if let Some(fields) = fields {
        components.push(record_of(alloc, fields.as_slice(), polarity)?)?;
    }
    Ok(())
}

// A record.
fn record_of<'a>(
    alloc: Global,
    fields: &[RowField<'a>],
    polarity: Polarity,
) -> Result<Vec<Item<'a>>, Memory>
    ensures { IfOk result (λ items. (sets around : _) → items_told sets around items.items
        ≡ text (codes "{") ∷ field_items around polarity (map (labelled sets) fields.now)) }
{
    let mut items = vec![in alloc; Item::Tell(Piece::Text(b"{"))]?;
    for (i, field) in fields.iter().enumerate() {
        add_field(&mut items, i == 0, field, polarity)?;
    }
    items.push(Item::Tell(Piece::Text(b"}")))?;
    Ok(items)
}

// One more field, with a comma before it if it is not the first.
fn add_field<'a>(
    items: &mut Vec<Item<'a>>,
    is_first: bool,
    field: &RowField<'a>,
    polarity: Polarity,
) -> Result<(), Memory>
    ensures { OnOk result ((sets around : _) → items_told sets around items.new.items
        ≡ items_told sets around items.old.items ++ push_field around polarity is_first (labelled sets field.now)) }
{
    if !is_first {
        items.push(Item::Tell(Piece::Text(b", ")))?;
    }
    items.push(Item::Tell(Piece::Text(field.label.bytes())))?;
    items.push(Item::Tell(Piece::Text(b": ")))?;
    items.push(Item::Show(polarity, field.set))?;
    Ok(())
}
