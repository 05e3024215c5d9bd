//! Pieces of the text.

/// A piece of the text. The sets that the text shows are numbered in the order in which they begin.
#[derive(Clone, Copy)]
pub enum Piece<'a> {
    /// These bytes.
    Text(&'a [u8]),
    /// The name of the variable of a state.
    Variable(usize),
    /// The name of a set that is being shown around this place.
    Again(usize),
    /// Here a set begins: its `rec` stands here, if it has one.
    Begins(usize),
    /// A parenthesis before a set, which stands here if the set has a `rec`.
    Opens(usize),
    /// A parenthesis behind a set, which stands here if the set has a `rec`.
    Closes(usize),
}

/// The pieces from left to right, and how many sets they show.
#[derive(Drop)]
pub struct Layout<'a> {
    pub pieces: Vec<Piece<'a>>,
    pub sets: usize,
}
