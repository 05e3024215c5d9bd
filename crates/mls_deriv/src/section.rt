//! Sections from their lines.
ghost use Rattle.std.specs.Prelude.{◌≡◌, ◌+◌, ◌++◌, length, IfOk, MatchOption};
ghost use Rattle.mls_base.specs.Spelling.{IsName};
ghost use Rattle.mls_deriv.specs.BadLines.{HasLines};
ghost use Rattle.mls_deriv.specs.inner.Readings.{HasNodes, IsHeadFound, IsSectionRead, IsTypeFound, IsNameAndType};

use crate::derivation::{Section, SectionLines};
use crate::fit::{book_of, first_unfit};
use crate::front::{behind, front_of, word_of};
use crate::line_reader::LineReader;
use crate::node_line::read_node;
use crate::stand::GivenLines;
use crate::walk::is_memory;
use mls_base::list::List;
use mls_base::memory::Memory;
use mls_base::spelling::is_name;
use mls_book::book::Node;
use mls_book::name::Name;
use mls_typetext::from_text::read_type;
use mls_typetext::scheme::ReadScheme;
use std::alloc::Global;

// The sum of two numbers; one that is too large is no number of lines that memory holds.
pub(crate) fn sum(first: usize, second: usize) -> Result<usize, Memory>
    ensures { IfOk result (λ n. n ≡ first + second) }
{
    first.checked_add(second).ok_or(Memory)
}

// The section at the front of a text and what stands behind it, or the number of its first bad line, from 0.
#[derive(Drop)]
pub(crate) enum SectionRead<'a> {
    Bad(usize),
    Good(Section, &'a [u8]),
}

// Reads a section.
pub(crate) fn read_section(alloc: Global, text: &[u8]) -> Result<SectionRead<'_>, Memory>
    ensures { IfOk result (IsSectionRead text.now) }
{
    let head = match read_head(alloc, text)? {
        None => return Ok(SectionRead::Bad(0)),
        Some(head) => head,
    };
    let run = read_nodes(alloc, head.rest)?;
    let count = run.nodes.len();
    if let Some(i) = first_unfit(&head.read.book, run.nodes.as_slice()) {
        return Ok(SectionRead::Bad(sum(i, 1)?));
    }
    let found = read_lines(alloc, count, run.rest)?;
    let left = match behind(found.rest, b"end\n") {
        None => return Ok(SectionRead::Bad(sum(sum(count, found.lines.len())?, 1)?)),
        Some(left) => left,
    };
    let section = Section {
        name: Name::new(alloc, head.name)?,
        text: list_of(alloc, head.type_text)?,
        nodes: book_of(alloc, run.nodes)?,
        lines: found.lines,
    };
    Ok(SectionRead::Good(section, left))
}

// What the first line of a section says, and what stands behind it.
#[derive(Drop)]
struct Head<'a> {
    name: &'a [u8],
    type_text: &'a [u8],
    read: ReadScheme,
    rest: &'a [u8],
}

// Reads the line of a name and a type.
fn read_head(alloc: Global, text: &[u8]) -> Result<Option<Head<'_>>, Memory>
    ensures { IfOk result (IsHeadFound text.now) }
{
    let front = match front_of(text) {
        None => return Ok(None),
        Some(front) => front,
    };
    let (name, type_text) = match name_and_type(front.line) {
        None => return Ok(None),
        Some(parts) => parts,
    };
    match type_of(alloc, type_text)? {
        None => Ok(None),
        Some(read) => Ok(Some(Head {
            name,
            type_text,
            read,
            rest: front.rest,
        })),
    }
}

// The name and the text of the type of such a line.
fn name_and_type(line: &[u8]) -> Option<(&[u8], &[u8])>
    ensures { IsNameAndType line.now result }
{
    let rest = match behind(line, b"val ") {
        None => return None,
        Some(rest) => rest,
    };
    let word = match word_of(rest) {
        None => return None,
        Some(word) => word,
    };
    if !is_name(word.line) {
        return None;
    }
    match behind(word.rest, b": ") {
        None => None,
        Some(type_text) => Some((word.line, type_text)),
    }
}

// What the text of a type is read as, if it is.
fn type_of(alloc: Global, text: &[u8]) -> Result<Option<ReadScheme>, Memory>
    ensures { IfOk result (IsTypeFound text.now) }
{
    match read_type(alloc, text) {
        Ok(read) => Ok(Some(read)),
        Err(fault) => {
            if is_memory(&fault) {
                Err(Memory)
            } else {
                Ok(None)
            }
        }
    }
}

// The nodes whose lines stand at the front of a text, and what stands behind them.
#[derive(Drop)]
struct Run<'a> {
    nodes: Vec<Node>,
    rest: &'a [u8],
}

// Reads them.
fn read_nodes(alloc: Global, text: &[u8]) -> Result<Run<'_>, Memory>
    ensures { IfOk result (λ run. HasNodes text.now run.nodes.items run.rest.now) }
{
    let mut rest = text;
    let mut nodes = Vec::new(alloc);
    let mut words = Vec::new(alloc);
    while let Some(front) = front_of(rest) {
        match read_node(alloc, &mut words, front.line)? {
            None => return Ok(Run { nodes, rest }),
            Some(node) => nodes.push(node)?,
        }
        rest = front.rest;
    }
    Ok(Run { nodes, rest })
}

// The bytes as a list.
fn list_of(alloc: Global, bytes: &[u8]) -> Result<List<u8>, Memory>
    ensures { IfOk result (λ list. list ≡ bytes.now) }
{
    let mut list = List::new(alloc);
    for byte in bytes {
        list.push(*byte)?;
    }
    Ok(list)
}

// The lines at the front of a text that may stand behind the nodes of a section, and what stands behind them.
#[derive(Drop)]
struct Found<'a> {
    lines: SectionLines,
    rest: &'a [u8],
}

// Reads them, in a section of so many nodes.
fn read_lines(alloc: Global, nodes: usize, text: &[u8]) -> Result<Found<'_>, Memory>
    ensures { IfOk result (λ found. HasLines nodes text.now found.lines found.rest.now) }
{
    let mut rest = text;
    let mut given = GivenLines::new(alloc);
    let mut lines = SectionLines::new(alloc);
    let mut reader = LineReader::new(alloc);
    while let Some(front) = front_of(rest) {
        match reader.read(alloc, front.line)? {
            None => return Ok(Found { lines, rest }),
            Some(line) => {
                if !given.may_stand(nodes, &line) {
                    return Ok(Found { lines, rest });
                }
                given.take(alloc, &line)?;
                lines.push(line)?;
                rest = front.rest;
            }
        }
    }
    Ok(Found { lines, rest })
}
