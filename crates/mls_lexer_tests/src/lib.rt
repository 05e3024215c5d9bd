//! Tests of tokens, numbers and places, over public calls alone.
#![tactic(auto)]

#[cfg(test)]
mod tests_of_numbers;
#[cfg(test)]
mod tests_of_places;
#[cfg(test)]
mod tests_of_scanning;
