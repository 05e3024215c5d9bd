//! Interfaces: what the text of an interface declares, or its first fault. Signatures: their texts, and the interfaces
//! that they match.
#![tactic(auto)]

mod grammar;
pub mod interface;
pub mod laws;
pub mod matching;
pub mod print;
pub mod read;
pub mod signature;

pub use interface::{IfaceFault, Interface, Val};
pub use matching::{MatchAnswer, Path, matches};
pub use print::print_interface;
pub use read::read_interface;
pub use signature::{SigEntry, Signature};
