//! Expressions whose names are replaced by what they mean, and the rules of typing.
#![tactic(auto)]

pub mod term;
pub mod typing_laws;
