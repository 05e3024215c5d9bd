//! Tests of stores and sinks, over public calls alone.
#![tactic(auto)]

#[cfg(test)]
mod tests_of_directories;
#[cfg(test)]
mod tests_of_failing;
#[cfg(test)]
mod tests_of_memory;
#[cfg(test)]
mod tests_of_output;
#[cfg(test)]
mod tests_of_paths;
