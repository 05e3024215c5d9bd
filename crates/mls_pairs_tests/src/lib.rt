//! Tests of lists of pairs, over public calls alone.
#![tactic(auto)]

#[cfg(test)]
mod tests_of_pairs;
