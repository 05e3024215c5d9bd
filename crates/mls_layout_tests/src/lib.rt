//! Tests of layouts, over public calls alone.
#![tactic(auto)]

#[cfg(test)]
mod tests_of_layout;
#[cfg(test)]
mod tests_of_trees;
#[cfg(test)]
mod tests_of_types;
