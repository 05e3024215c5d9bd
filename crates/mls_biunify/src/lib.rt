//! Tables of states that are updated in place, with the closed relation of goals between them, and all of `mls_solver`.
#![tactic(auto)]

pub use mls_solver::{found, goal, laws, materialise, room, saturate, search, settle};

mod absorb;
mod clash;
mod copy;
mod edges;
mod frozen;
mod keep;
pub mod live;
mod marks;
mod reach;
mod relation;
mod rename;
mod settlement;
mod table;
mod worklist;
