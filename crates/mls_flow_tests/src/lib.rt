//! Tests of tables of flows, over public calls alone.
#![tactic(auto)]

#[cfg(test)]
mod tests_of_flows;
