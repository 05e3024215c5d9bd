//! The commands of the checker: from words and a store to bytes in a sink and a status.
#![tactic(auto)]

mod answer;
mod check;
mod command;
mod derive;
mod faults;
mod fetching;
mod generate;
pub mod generator;
mod infer;
pub mod laws;
mod lines;
mod mismatches;
mod numbers;
mod parser;
mod reading;
pub mod run;
pub mod status;
mod verify;
mod writing;
