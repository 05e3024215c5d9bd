//! Tests of signatures of modules, over public calls alone.
#![tactic(auto)]

#[cfg(test)]
mod tests_of_modules;
