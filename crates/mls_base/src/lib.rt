//! What every crate of the checker shares: how names are spelled, lists, the one error of memory, and files by name.
#![tactic(auto)]

pub mod list;
pub mod memory;
pub mod spelling;
