//! Tests of biunification, over public calls alone.
#![tactic(auto)]

#[cfg(test)]
mod samples;
#[cfg(test)]
mod tests_of_copies;
#[cfg(test)]
mod tests_of_live;
#[cfg(test)]
mod tests_of_materialising;
#[cfg(test)]
mod tests_of_saturating;
#[cfg(test)]
mod tests_of_searching;
#[cfg(test)]
mod tests_of_settling;
