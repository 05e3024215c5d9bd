//! Tests of schemes, and of the books and texts that they have, over public calls alone.
#![tactic(auto)]

#[cfg(test)]
mod tests_of_automata;
#[cfg(test)]
mod tests_of_books;
#[cfg(test)]
mod tests_of_reading;
#[cfg(test)]
mod tests_of_schemes;
