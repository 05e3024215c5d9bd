//! The lines of nodes.
ghost use Rattle.std.specs.Prelude.{◌≡◌, ◌↔◌, ◌++◌, codes, drop, IfOk, IsTrue};
ghost use Rattle.mls_deriv.specs.Spellings.{node_words};
ghost use Rattle.mls_deriv.specs.inner.Guesses.{node_word, node_guess, fields_guess, value_at};
ghost use Rattle.mls_deriv.specs.inner.Readings.{IsNodeRead, HasRising};

use crate::print::add_node;
use crate::words::Words;
use mls_base::memory::Memory;
use mls_base::spelling::is_name;
use mls_book::book::{Field, Fields, Node, NodeId};
use mls_book::name::Name;
use std::alloc::Global;

/// The node that the line spells, if it is the line of a node. The words of the line tell which node it may be, and the
/// line is the one that this node has. What stands in `text` is lost: it is the room for the words of this node.
///
/// # Errors
///
/// `Memory` where memory is wanting.
pub fn read_node(alloc: Global, text: &mut Vec<u8>, line: &[u8]) -> Result<Option<Node>, Memory>
    ensures { IfOk result (IsNodeRead line.now) }
{
    let words = Words::of(alloc, line)?;
    let node = node_of(alloc, &words)?;
    if !is_rising(&node) {
        return Ok(None);
    }
    if is_spelled(text, &node, line)? {
        Ok(Some(node))
    } else {
        Ok(None)
    }
}

// Whether the line spells the node, whose words are then in `text`.
fn is_spelled(text: &mut Vec<u8>, node: &Node, line: &[u8]) -> Result<bool, Memory>
    ensures { IfOk result (λ same. IsTrue same ↔ (line.now ≡ codes "node" ++ node_words node.now)) }
{
    text.clear();
    text.extend_from_slice(b"node")?;
    add_node(text, node)?;
    Ok(text.as_slice() == line)
}

// Whether the labels of a record rise.
fn is_rising(node: &Node) -> bool
    ensures { IsTrue result ↔ HasRising node.now }
{
    match node {
        Node::Rcd(fields) => fields.is_rising(),
        _ => true,
    }
}

// The kinds of nodes, by their words. A word that is none of theirs counts as that of a record.
#[derive(Clone, Copy)]
enum NodeWord {
    Bot,
    Top,
    Var,
    Bool,
    Int,
    Fn,
    Rcd,
    Join,
    Meet,
}

// The kind of this word.
fn node_word(word: &[u8]) -> NodeWord
    ensures { result ≡ node_word word.now }
{
    match word {
        b"bot" => NodeWord::Bot,
        b"top" => NodeWord::Top,
        b"var" => NodeWord::Var,
        b"bool" => NodeWord::Bool,
        b"int" => NodeWord::Int,
        b"fn" => NodeWord::Fn,
        b"join" => NodeWord::Join,
        b"meet" => NodeWord::Meet,
        _ => NodeWord::Rcd,
    }
}

// The node that these words may spell.
fn node_of(alloc: Global, words: &Words) -> Result<Node, Memory>
    ensures { IfOk result (λ n. n ≡ node_guess words.now) }
{
    match node_word(words.word(1)) {
        NodeWord::Bot => Ok(Node::Bot),
        NodeWord::Top => Ok(Node::Top),
        NodeWord::Var => Ok(Node::Var(words.value(2))),
        NodeWord::Bool => Ok(Node::Bool),
        NodeWord::Int => Ok(Node::Int),
        NodeWord::Fn => {
            let (j, k) = children_of(words);
            Ok(Node::Arrow(j, k))
        }
        NodeWord::Rcd => Ok(Node::Rcd(fields_of(alloc, words)?)),
        NodeWord::Join => {
            let (j, k) = children_of(words);
            Ok(Node::Join(j, k))
        }
        NodeWord::Meet => {
            let (j, k) = children_of(words);
            Ok(Node::Meet(j, k))
        }
    }
}

// Two children.
fn children_of(words: &Words) -> (NodeId, NodeId)
    ensures { (result.0.0 ≡ value_at words.now 2) × (result.1.0 ≡ value_at words.now 3) }
{
    (NodeId(words.value(2)), NodeId(words.value(3)))
}

// The fields that the words behind the first two may spell, up to one that is no label.
fn fields_of(alloc: Global, words: &Words) -> Result<Fields, Memory>
    ensures { IfOk result (λ fields. fields ≡ fields_guess (drop 2 words.now)) }
{
    let mut fields = Fields::new(alloc);
    for i in 1..words.len() / 2 {
        let word = words.word(2 * i);
        if !is_name(word) {
            return Ok(fields);
        }
        let label = Name::new(alloc, word)?;
        let node = NodeId(words.value(2 * i + 1));
        fields.push(Field { label, node })?;
    }
    Ok(fields)
}
