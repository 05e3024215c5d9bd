//! Tests of books and finite tests, over public calls alone.
#![tactic(auto)]

#[cfg(test)]
mod tests_of_tests;
