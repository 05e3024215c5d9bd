//! The application that concludes the type of a part.

use mls_book::book::NodeId;
use mls_term::term::{TermForm, TermNode};

/// Of the one or two applications that conclude the type of a part the first, whether it is the function of another one,
/// and the type of the part.
#[derive(Clone, Copy)]
pub struct Ending {
    pub first: usize,
    pub is_function: bool,
    pub wanted: NodeId,
}

// The second part of a let, which has the type of the let.
fn second_of(nodes: &[TermNode], node: usize) -> Option<usize> {
    let node = nodes.get(node)?;
    match &node.form {
        TermForm::Let(_, _, second) => Some(*second),
        _ => None,
    }
}

// The function of an application.
fn function_of(nodes: &[TermNode], node: usize) -> Option<usize> {
    let node = nodes.get(node)?;
    match &node.form {
        TermForm::Apply(function, _) => Some(*function),
        _ => None,
    }
}

// The node from which a node has its type, behind the lets that it begins with.
fn behind_lets(nodes: &[TermNode], root: usize) -> usize {
    let mut node = root;
    for _ in 0..nodes.len() {
        match second_of(nodes, node) {
            Some(second) => node = second,
            None => return node,
        }
    }
    node
}

/// The applications that conclude the type of the part with this root, if its type is that of an application to one or
/// two arguments.
pub fn ending_of(nodes: &[TermNode], root: usize, wanted: NodeId) -> Option<Ending> {
    let last = behind_lets(nodes, root);
    let function = function_of(nodes, last)?;
    let first = match function_of(nodes, function) {
        None => last,
        Some(_) => function,
    };
    let head = function_of(nodes, first)?;
    if function_of(nodes, head).is_some() {
        return None;
    }
    Some(Ending {
        first,
        is_function: first != last,
        wanted,
    })
}
