//! The nodes of a type and of a part of a term, behind those of its type.
#![tactic(auto)]

pub mod layout;
pub mod tree;
pub mod type_layout;
pub mod walk;
