//! Tests of inference and of the table that it works on, over public calls alone.
#![tactic(auto)]

#[cfg(test)]
mod tests_of_fields;
#[cfg(test)]
mod tests_of_regions;
#[cfg(test)]
mod tests_of_terms;
