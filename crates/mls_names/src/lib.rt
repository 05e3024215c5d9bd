//! What the names of a module mean.
#![tactic(auto)]

mod counts;
pub mod resolution_laws;
pub mod resolve;
mod resolver;

pub use mls_base::list::List;
pub use mls_book::name::Name;
pub use mls_grammar::fault::Fault;
pub use mls_grammar::module::Module;
pub use mls_term::term::{Resolved, ResolvedBinding, ResolvedBindings, Term};
pub use resolve::NameList;
