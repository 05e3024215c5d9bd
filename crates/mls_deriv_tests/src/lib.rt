//! Tests of checking, printing and reading derivations, over public calls alone.
#![tactic(auto)]

#[cfg(test)]
mod tests_of_checking;
#[cfg(test)]
mod tests_of_reading;
