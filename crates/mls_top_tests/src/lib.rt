//! Tests of the commands, over the one call that the program makes.
#![tactic(auto)]

#[cfg(test)]
mod samples;
#[cfg(test)]
mod tests_of_clashes;
#[cfg(test)]
mod tests_of_comparing;
#[cfg(test)]
mod tests_of_deriving;
#[cfg(test)]
mod tests_of_failing;
#[cfg(test)]
mod tests_of_faults;
#[cfg(test)]
mod tests_of_forms;
#[cfg(test)]
mod tests_of_generate;
#[cfg(test)]
mod tests_of_imports;
#[cfg(test)]
mod tests_of_refusing;
#[cfg(test)]
mod tests_of_signatures;
#[cfg(test)]
mod tests_of_verifying;
#[cfg(test)]
mod tests_of_words;
