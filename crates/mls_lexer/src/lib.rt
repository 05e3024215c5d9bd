//! Texts as tokens: their kinds and places, the first fault of a text, lines and columns.
#![tactic(auto)]

mod kinds;
pub mod laws;
pub mod number;
pub mod place;
pub mod scan;
pub mod token;

pub use number::number_of;
pub use place::locate;
pub use scan::tokens;
pub use token::{Kind, LexFault, Token};
