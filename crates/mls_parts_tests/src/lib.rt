//! Tests of the parts of terms and of their constraints, over public calls alone.
#![tactic(auto)]

#[cfg(test)]
mod lists;
#[cfg(test)]
mod samples;
#[cfg(test)]
mod tests_of_parts;
#[cfg(test)]
mod tests_of_posing;
#[cfg(test)]
mod tests_of_sharing;
