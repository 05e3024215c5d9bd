//! Tests of printing schemes, over public calls alone.
#![tactic(auto)]

#[cfg(test)]
mod tests_of_printing;
