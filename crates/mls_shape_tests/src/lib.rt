//! Tests of determinising, minimising and dropping flows, over public calls alone.
#![tactic(auto)]

#[cfg(test)]
mod tests_of_edges;
#[cfg(test)]
mod tests_of_shapes;
