//! Modules: their grammar, the tree of a text, and its first fault.
#![tactic(auto)]

pub mod fault;
pub mod grammar_laws;
pub mod laws;
pub mod module;

pub use fault::Fault;
pub use mls_base::list::List;
pub use mls_base::memory::Memory;
pub use mls_book::name::Name;
pub use mls_lexer::token::{Kind, LexFault};
pub use module::{
    Binding, Bindings, Expr, ExprNode, ExprNodes, Form, Import, Imports, Module, Op, Part, Parts,
};
