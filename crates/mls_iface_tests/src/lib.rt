//! Tests of interfaces and of signatures, over public calls alone.
#![tactic(auto)]

#[cfg(test)]
mod tests_of_reading;
#[cfg(test)]
mod tests_of_signatures;
