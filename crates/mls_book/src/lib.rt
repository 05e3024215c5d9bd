//! Books of types, finite tests upon them, and the laws of their order.
#![tactic(auto)]

pub mod book;
pub mod laws;
pub mod name;
pub mod test;

pub use book::{Book, Field, Fields, Node, NodeId};
pub use mls_base::memory::Memory;
pub use name::Name;
