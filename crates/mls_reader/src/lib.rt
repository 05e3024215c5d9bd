//! The reader of modules: from a text to its module, or to its first fault.
#![tactic(auto)]

mod doubles;
mod names;
mod nodes;
pub mod parse;
mod piece;
mod read;
mod spelling;
mod todo;

pub use mls_grammar::fault::Fault;
pub use mls_grammar::module::Module;
pub use parse::parse_module;
