//! The texts of types: their grammar, their trees, their books and their faults.
//!
//! The crate says what the text of a type is read as and which fault it has, reads it, and has the laws of both.
#![tactic(auto)]

mod bind;
mod count;
pub mod end;
pub mod from_text;
mod labels;
pub mod laws;
mod lay_out;
mod measure;
mod piece;
mod read;
mod resolve;
pub mod scheme;
mod variables;

pub use end::type_end;
pub use from_text::{read_type, read_type_from};
pub use mls_base::memory::Memory;
pub use mls_book::book::{Book, Field, Fields, Node, NodeId};
pub use mls_book::name::Name;
pub use mls_lexer::token::{Kind, LexFault, Token};
pub use scheme::{ReadScheme, TypeFault};
