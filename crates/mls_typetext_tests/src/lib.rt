//! Tests of the texts of types, over public calls alone.
#![tactic(auto)]

#[cfg(test)]
mod tests_of_ends;
#[cfg(test)]
mod tests_of_names;
#[cfg(test)]
mod tests_of_nodes;
#[cfg(test)]
mod tests_of_reading;
