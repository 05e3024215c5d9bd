//! Tests of which scheme subsumes which, over public calls alone.
#![tactic(auto)]

#[cfg(test)]
mod samples;
#[cfg(test)]
mod tests_of_edges;
#[cfg(test)]
mod tests_of_heads;
