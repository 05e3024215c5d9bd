//! Tests of names and lists, over public calls alone.
#![tactic(auto)]

#[cfg(test)]
mod tests_of_lists;
#[cfg(test)]
mod tests_of_spelling;
