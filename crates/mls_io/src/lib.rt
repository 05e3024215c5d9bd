//! Where texts come from, and where answers go: traits for both, and what reads and writes in memory, in a directory
//! and on standard output.
#![tactic(auto)]

mod count;
pub mod directory;
pub mod failing;
pub mod memory;
pub mod output;
pub mod path;
pub mod sink;
pub mod store;
