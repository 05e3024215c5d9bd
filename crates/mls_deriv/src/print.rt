//! The texts of derivations.
ghost use Rattle.std.specs.Prelude.{◌≡◌, ◌++◌, codes, IfOk, OnOk};
ghost use Rattle.std.specs.List.{flat_map};
ghost use Rattle.mls_deriv.specs.declared.derivation.SectionLine.TheVariants.{Step};
ghost use Rattle.mls_deriv.specs.Spellings.{derivation_text, section_text, line_text, line_words, mode_word};
ghost use Rattle.mls_deriv.specs.Spellings.{rule_words};
ghost use Rattle.mls_deriv.specs.Spellings.{node_line, node_words, field_words, entry_words, number_word, number_words};

use crate::derivation::{BinderNode, Derivation, Mode, Section, SectionLine, StepLine, StepRule};
use crate::last_env::LastEnv;
use itoa::Buffer;
use mls_base::memory::Memory;
use mls_book::book::{Book, Field, Node, NodeId};
use std::alloc::Global;

/// The text of a derivation: the line `derivation 1`, and for each section its lines.
///
/// # Errors
///
/// `Memory` where memory is wanting.
#[tactic(auto, using(crate::proofs::Written::more_written, crate::proofs::Written::all_written))]
pub fn print_derivation(alloc: Global, derivation: &Derivation) -> Result<Vec<u8>, Memory>
    ensures { IfOk result (λ text. text.items ≡ derivation_text derivation.now) }
{
    let mut text = Vec::new(alloc);
    text.extend_from_slice(b"derivation 1\n")?;
    for section in derivation.sections.as_slice() {
        add_section(alloc, &mut text, section)?;
    }
    Ok(text)
}

// A section.
fn add_section(alloc: Global, text: &mut Vec<u8>, section: &Section) -> Result<(), Memory>
    ensures { OnOk result (text.new.items ≡ text.old.items ++ section_text section.now) }
{
    text.extend_from_slice(b"val ")?;
    text.extend_from_slice(section.name.bytes())?;
    text.extend_from_slice(b" : ")?;
    text.extend_from_slice(section.text.as_slice())?;
    text.extend_from_slice(b"\n")?;
    add_nodes(text, &section.nodes)?;
    add_lines(alloc, text, section.lines.as_slice())?;
    text.extend_from_slice(b"end\n")?;
    Ok(())
}

// A space and a number.
fn add_number(text: &mut Vec<u8>, number: usize) -> Result<(), Memory>
    ensures { OnOk result (text.new.items ≡ text.old.items ++ number_word number) }
{
    text.push(b' ')?;
    text.extend_from_slice(Buffer::new().format(number).as_bytes())?;
    Ok(())
}

// Two of them.
fn add_two(text: &mut Vec<u8>, first: usize, second: usize) -> Result<(), Memory>
    ensures { OnOk result (text.new.items ≡ text.old.items ++ (number_word first ++ number_word second)) }
{
    add_number(text, first)?;
    add_number(text, second)
}

// Many of them.
#[tactic(auto, using(crate::proofs::Written::more_written, crate::proofs::Written::all_written))]
fn add_numbers(text: &mut Vec<u8>, numbers: &[usize]) -> Result<(), Memory>
    ensures { OnOk result (text.new.items ≡ text.old.items ++ number_words numbers.now) }
{
    for number in numbers {
        add_number(text, *number)?;
    }
    Ok(())
}

// The lines of nodes.
#[tactic(auto, using(crate::proofs::Written::more_written, crate::proofs::Written::all_written))]
fn add_nodes(text: &mut Vec<u8>, book: &Book) -> Result<(), Memory>
    ensures { OnOk result (text.new.items ≡ text.old.items ++ flat_map node_line book.now) }
{
    for i in 0..book.len() {
        add_node_line(text, book.node(NodeId(i)))?;
    }
    Ok(())
}

// The line of a node.
fn add_node_line(text: &mut Vec<u8>, node: &Node) -> Result<(), Memory>
    ensures { OnOk result (text.new.items ≡ text.old.items ++ node_line node.now) }
{
    add_node_front(text, node)?;
    text.push(b'\n')?;
    Ok(())
}

// What stands on the line of a node. The words of the commonest nodes are added at once.
fn add_node_front(text: &mut Vec<u8>, node: &Node) -> Result<(), Memory>
    ensures { OnOk result (text.new.items ≡ text.old.items ++ (codes "node" ++ node_words node.now)) }
{
    match node {
        Node::Var(x) => add_one(text, b"node var", *x),
        Node::Arrow(j, k) => add_pair(text, b"node fn", j.0, k.0),
        _ => {
            text.extend_from_slice(b"node")?;
            add_node(text, node)
        }
    }
}

// What stands on the line of a node behind its first word.
pub(crate) fn add_node(text: &mut Vec<u8>, node: &Node) -> Result<(), Memory>
    ensures { OnOk result (text.new.items ≡ text.old.items ++ node_words node.now) }
{
    match node {
        Node::Bot => text.extend_from_slice(b" bot")?,
        Node::Top => text.extend_from_slice(b" top")?,
        Node::Var(x) => {
            text.extend_from_slice(b" var")?;
            add_number(text, *x)?;
        }
        Node::Bool => text.extend_from_slice(b" bool")?,
        Node::Int => text.extend_from_slice(b" int")?,
        Node::Arrow(j, k) => add_pair(text, b" fn", j.0, k.0)?,
        Node::Rcd(fields) => {
            text.extend_from_slice(b" rcd")?;
            add_fields(text, fields.as_slice())?;
        }
        Node::Join(j, k) => add_pair(text, b" join", j.0, k.0)?,
        Node::Meet(j, k) => add_pair(text, b" meet", j.0, k.0)?,
    }
    Ok(())
}

// A word and two numbers.
fn add_pair(text: &mut Vec<u8>, word: &[u8], first: usize, second: usize) -> Result<(), Memory>
    ensures { OnOk result (text.new.items ≡ text.old.items ++ (word.now ++ number_word first ++ number_word second)) }
{
    text.extend_from_slice(word)?;
    add_number(text, first)?;
    add_number(text, second)
}

// A word and a number.
pub(crate) fn add_one(text: &mut Vec<u8>, word: &[u8], number: usize) -> Result<(), Memory>
    ensures { OnOk result (text.new.items ≡ text.old.items ++ (word.now ++ number_word number)) }
{
    text.extend_from_slice(word)?;
    add_number(text, number)
}

// The labels of a record with their nodes.
#[tactic(auto, using(crate::proofs::Written::more_written, crate::proofs::Written::all_written))]
fn add_fields(text: &mut Vec<u8>, fields: &[Field]) -> Result<(), Memory>
    ensures { OnOk result (text.new.items ≡ text.old.items ++ flat_map field_words fields.now) }
{
    for field in fields {
        add_field(text, field)?;
    }
    Ok(())
}

// A label with its node.
fn add_field(text: &mut Vec<u8>, field: &Field) -> Result<(), Memory>
    ensures { OnOk result (text.new.items ≡ text.old.items ++ field_words field.now) }
{
    text.extend_from_slice(b" ")?;
    text.extend_from_slice(field.label.bytes())?;
    add_number(text, field.node.0)
}

// The lines behind the nodes.
#[tactic(auto, using(crate::proofs::Written::more_written, crate::proofs::Written::all_written))]
fn add_lines(alloc: Global, text: &mut Vec<u8>, lines: &[SectionLine]) -> Result<(), Memory>
    ensures { OnOk result (text.new.items ≡ text.old.items ++ flat_map line_text lines.now) }
{
    let mut last = LastEnv::new(alloc);
    for line in lines {
        add_line(alloc, text, &mut last, line)?;
    }
    Ok(())
}

// One of them.
fn add_line<'a>(
    alloc: Global,
    text: &mut Vec<u8>,
    last: &mut LastEnv<'a>,
    line: &'a SectionLine,
) -> Result<(), Memory>
    ensures { OnOk result (text.new.items ≡ text.old.items ++ line_text line.now) }
{
    match line {
        SectionLine::Step(step) => add_known(alloc, text, last, step.get())?,
        _ => add_words(text, line)?,
    }
    text.push(b'\n')?;
    Ok(())
}

// The words of a step, whose environment may be the last one that was printed.
fn add_known<'a>(
    alloc: Global,
    text: &mut Vec<u8>,
    last: &mut LastEnv<'a>,
    step: &'a StepLine,
) -> Result<(), Memory>
    ensures { OnOk result (text.new.items ≡ text.old.items ++ line_words (Step step.now)) }
{
    add_front(text, step)?;
    last.add(alloc, text, step.env.as_slice())?;
    add_one(text, b" type", step.root.0)
}

// The words of a line.
pub(crate) fn add_words(text: &mut Vec<u8>, line: &SectionLine) -> Result<(), Memory>
    ensures { OnOk result (text.new.items ≡ text.old.items ++ line_words line.now) }
{
    match line {
        SectionLine::Let(k, s) => add_pair(text, b"let", *k, *s),
        SectionLine::Step(step) => add_step(text, step.get()),
        SectionLine::Put(x, n) => add_pair(text, b"put", *x, n.0),
        SectionLine::Pair(mode, i, j) => add_pair(text, pair_words(*mode), i.0, j.0),
    }
}

// The first words of the line of a pair.
fn pair_words(mode: Mode) -> &'static [u8]
    ensures { result.now ≡ codes "pair" ++ mode_word mode }
{
    match mode {
        Mode::Lr => b"pair lr",
        Mode::Rl => b"pair rl",
        Mode::Pp => b"pair pp",
    }
}

// The words of a step.
fn add_step(text: &mut Vec<u8>, step: &StepLine) -> Result<(), Memory>
    ensures { OnOk result (text.new.items ≡ text.old.items ++ line_words (Step step.now)) }
{
    add_front(text, step)?;
    add_env(text, step.env.as_slice())?;
    add_one(text, b" type", step.root.0)
}

// The words of a step in front of its environment.
fn add_front(text: &mut Vec<u8>, step: &StepLine) -> Result<(), Memory>
    ensures { OnOk result (text.new.items ≡ text.old.items
        ++ (codes "step" ++ number_word step.now.node ++ rule_words step.now.rule ++ codes " env")) }
{
    text.extend_from_slice(b"step")?;
    add_number(text, step.node)?;
    add_rule(text, &step.rule)?;
    text.extend_from_slice(b" env")?;
    Ok(())
}

// The rule of a step.
fn add_rule(text: &mut Vec<u8>, rule: &StepRule) -> Result<(), Memory>
    ensures { OnOk result (text.new.items ≡ text.old.items ++ rule_words rule.now) }
{
    match rule {
        StepRule::Var => text.extend_from_slice(b" var")?,
        StepRule::Use(s) => add_one(text, b" use", *s)?,
        StepRule::Name(n) => add_one(text, b" name", n.0)?,
        StepRule::Lit => text.extend_from_slice(b" lit")?,
        StepRule::Fun(s) => add_one(text, b" fun", *s)?,
        StepRule::App(s, t) => add_pair(text, b" app", *s, *t)?,
        StepRule::Make(numbers) => {
            text.extend_from_slice(b" make")?;
            add_numbers(text, numbers.as_slice())?;
        }
        StepRule::Proj(s) => add_one(text, b" proj", *s)?,
        StepRule::If(s, t, u) => {
            add_pair(text, b" if", *s, *t)?;
            add_number(text, *u)?;
        }
        StepRule::Let(s, t) => add_pair(text, b" let", *s, *t)?,
        StepRule::Rec(s) => add_one(text, b" rec", *s)?,
        StepRule::Sub(s) => add_one(text, b" sub", *s)?,
    }
    Ok(())
}

// The binders of an environment with their nodes.
#[tactic(auto, using(crate::proofs::Written::more_written, crate::proofs::Written::all_written))]
pub(crate) fn add_env(text: &mut Vec<u8>, env: &[BinderNode]) -> Result<(), Memory>
    ensures { OnOk result (text.new.items ≡ text.old.items ++ flat_map entry_words env.now) }
{
    for entry in env {
        add_two(text, entry.binder, entry.node.0)?;
    }
    Ok(())
}
