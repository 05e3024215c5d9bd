//! Which derivations have a text of their own.
ghost use Rattle.std.specs.Prelude.{◌≡◌, ◌↔◌, All, IfOk, IsTrue};
ghost use Rattle.mls_base.specs.Spelling.{IsName};
ghost use Rattle.mls_deriv.specs.Forms.{IsWord, IsEntryForm, IsFieldForm, IsNodeForm, IsLineForm, IsStepForm, arguments};
ghost use Rattle.mls_deriv.specs.Forms.{HasRisingBinders, HasRisingLabels};
ghost use Rattle.mls_deriv.specs.Spellings.{derivation_text};
ghost use Rattle.mls_deriv.specs.Steps.{IsRising};
ghost use Rattle.mls_deriv.specs.Texts.{IsOneLine, IsSectionForm, IsTextOf, AllStand, none_given};
ghost use Rattle.mls_deriv.specs.Texts.{IsRisingSection, IsSpelledSection, LinesStand};

use crate::derivation::{BinderNode, Derivation, Section, SectionLine, StepLine, StepRule};
use crate::stand::GivenLines;
use crate::steps::is_rising;
use crate::walk::head_of;
use mls_base::memory::Memory;
use mls_book::book::{Book, Field, Node, NodeId};
use mls_book::name::Name;
use std::alloc::Global;

/// Whether the derivation has a text: one that is read back as the same derivation.
///
/// # Errors
///
/// `Memory` where memory is wanting.
pub fn has_text(alloc: Global, derivation: &Derivation) -> Result<bool, Memory>
    ensures { IfOk result (λ yes. IsTrue yes ↔ IsTextOf (derivation_text derivation.now) derivation.now) }
{
    have_forms(alloc, derivation.sections.as_slice())
}

/// Whether each node and each line of the sections may be spelled. So it is wherever labels and binders rise, since each
/// number is a machine word, and each label a name.
pub fn are_spelled(sections: &[Section]) -> bool
    ensures spelled { IsTrue result ↔ All IsSpelledSection sections.now }
    ensures rising { All IsRisingSection sections.now → IsTrue result }
{
    for section in sections {
        if !is_spelled(section) {
            return false;
        }
    }
    true
}

/// Whether each line of the sections may stand behind those before it in its section.
///
/// # Errors
///
/// `Memory` where memory is wanting.
pub fn all_stand(alloc: Global, sections: &[Section]) -> Result<bool, Memory>
    ensures { IfOk result (λ yes. IsTrue yes ↔ All LinesStand sections.now) }
{
    for section in sections {
        if !is_in_order(alloc, section)? {
            return Ok(false);
        }
    }
    Ok(true)
}

// Whether each line of a section may stand behind those before it.
fn is_in_order(alloc: Global, section: &Section) -> Result<bool, Memory>
    ensures { IfOk result (λ yes. IsTrue yes ↔ LinesStand section.now) }
{
    do_stand(alloc, section.nodes.len(), section.lines.as_slice())
}

// Whether each node and each line of a section may.
fn is_spelled(section: &Section) -> bool
    ensures spelled { IsTrue result ↔ IsSpelledSection section.now }
    ensures rising { IsRisingSection section.now → IsTrue result }
{
    are_nodes(&section.nodes) && are_lines(section.lines.as_slice())
}

// Whether each of the sections has a text.
fn have_forms(alloc: Global, sections: &[Section]) -> Result<bool, Memory>
    ensures { IfOk result (λ yes. IsTrue yes ↔ All IsSectionForm sections.now) }
{
    for section in sections {
        if !has_form(alloc, section)? {
            return Ok(false);
        }
    }
    Ok(true)
}

// Whether a section has a text.
fn has_form(alloc: Global, section: &Section) -> Result<bool, Memory>
    ensures { IfOk result (λ yes. IsTrue yes ↔ IsSectionForm section.now) }
{
    match head_of(alloc, section)? {
        None => Ok(false),
        Some(_) => Ok(
            is_name(&section.name)
                && is_one_line(section.text.as_slice())
                && are_nodes(&section.nodes)
                && are_lines(section.lines.as_slice())
                && do_stand(alloc, section.nodes.len(), section.lines.as_slice())?,
        ),
    }
}

// Whether no byte is a newline.
fn is_one_line(bytes: &[u8]) -> bool
    ensures { IsTrue result ↔ IsOneLine bytes.now }
{
    bytes.iter().all(|byte| *byte != b'\n')
}

// A name is spelled as names are.
fn is_name(name: &Name) -> bool
    ensures spelled { IsTrue result ↔ IsName name.now }
    ensures sure { IsTrue result }
{
    !name.bytes().is_empty()
}

// A number of a machine word has the size of one.
fn is_word(number: usize) -> bool
    ensures word { IsTrue result ↔ IsWord number }
    ensures sure { IsTrue result }
{
    number <= usize::MAX
}

// Whether each of the nodes has a line.
fn are_nodes(book: &Book) -> bool
    ensures spelled { IsTrue result ↔ All IsNodeForm book.now }
    ensures rising { All HasRisingLabels book.now → IsTrue result }
{
    for i in 0..book.len() {
        if !is_node(book.node(NodeId(i))) {
            return false;
        }
    }
    true
}

// Whether a node has a line: the labels of a record rise.
fn is_node(node: &Node) -> bool
    ensures spelled { IsTrue result ↔ IsNodeForm node.now }
    ensures rising { HasRisingLabels node.now → IsTrue result }
{
    match node {
        Node::Bot | Node::Top | Node::Bool | Node::Int => true,
        Node::Var(x) => is_word(*x),
        Node::Arrow(j, k) | Node::Join(j, k) | Node::Meet(j, k) => is_word(j.0) && is_word(k.0),
        Node::Rcd(fields) => are_fields(fields.as_slice()) && fields.is_rising(),
    }
}

// Whether each of the fields may stand in one.
fn are_fields(fields: &[Field]) -> bool
    ensures spelled { IsTrue result ↔ All IsFieldForm fields.now }
    ensures sure { IsTrue result }
{
    fields
        .iter()
        .all(|field| is_name(&field.label) && is_word(field.node.0))
}

// Whether each of the lines behind the nodes may be spelled.
fn are_lines(lines: &[SectionLine]) -> bool
    ensures spelled { IsTrue result ↔ All IsLineForm lines.now }
    ensures rising { All HasRisingBinders lines.now → IsTrue result }
{
    lines.iter().all(|line| is_line(line))
}

// Whether such a line may: the binders of a step rise.
fn is_line(line: &SectionLine) -> bool
    ensures spelled { IsTrue result ↔ IsLineForm line.now }
    ensures rising { HasRisingBinders line.now → IsTrue result }
{
    match line {
        SectionLine::Let(k, s) => is_word(*k) && is_word(*s),
        SectionLine::Step(step) => is_step(step.get()),
        SectionLine::Put(x, n) => is_word(*x) && is_word(n.0),
        SectionLine::Pair(_, i, j) => is_word(i.0) && is_word(j.0),
    }
}

// Whether a step may.
fn is_step(step: &StepLine) -> bool
    ensures spelled { IsTrue result ↔ IsStepForm step.now }
    ensures rising { IsRising step.now.env → IsTrue result }
{
    is_word(step.node)
        && is_rule(&step.rule)
        && are_entries(step.env.as_slice())
        && is_rising(step.env.as_slice())
        && is_word(step.root.0)
}

// Whether each number of an environment is a word.
fn are_entries(env: &[BinderNode]) -> bool
    ensures spelled { IsTrue result ↔ All IsEntryForm env.now }
    ensures sure { IsTrue result }
{
    env.iter()
        .all(|entry| is_word(entry.binder) && is_word(entry.node.0))
}

// Whether each number of a rule is.
fn is_rule(rule: &StepRule) -> bool
    ensures spelled { IsTrue result ↔ All IsWord (arguments rule.now) }
    ensures sure { IsTrue result }
{
    match rule {
        StepRule::Var | StepRule::Lit => true,
        StepRule::Name(n) => is_word(n.0),
        StepRule::Use(s)
        | StepRule::Fun(s)
        | StepRule::Proj(s)
        | StepRule::Rec(s)
        | StepRule::Sub(s) => is_word(*s),
        StepRule::App(s, t) | StepRule::Let(s, t) => is_word(*s) && is_word(*t),
        StepRule::If(s, t, u) => is_word(*s) && is_word(*t) && is_word(*u),
        StepRule::Make(numbers) => numbers.as_slice().iter().all(|s| is_word(*s)),
    }
}

// Whether each of the lines may stand behind those before it, in a section of so many nodes.
fn do_stand(alloc: Global, nodes: usize, lines: &[SectionLine]) -> Result<bool, Memory>
    ensures { IfOk result (λ yes. IsTrue yes ↔ AllStand nodes none_given lines.now) }
{
    let mut given = GivenLines::new(alloc);
    for line in lines {
        if !given.may_stand(nodes, line) {
            return Ok(false);
        }
        given.take(alloc, line)?;
    }
    Ok(true)
}
