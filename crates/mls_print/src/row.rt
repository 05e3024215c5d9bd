//! The table of the sets that are shown.
use mls_book::name::Name;

/// What a set shows. Sets stand here by their numbers in the table.
#[derive(Drop)]
pub struct Row<'a> {
    pub variables: Vec<usize>,
    pub boolean: bool,
    pub integer: bool,
    pub function: Option<RowArms>,
    pub fields: Option<Vec<RowField<'a>>>,
}

/// The domain and the codomain of a function.
#[derive(Clone, Copy)]
pub struct RowArms {
    pub domain: usize,
    pub codomain: usize,
}

/// A label and its set.
#[derive(Clone, Copy)]
pub struct RowField<'a> {
    pub label: &'a Name,
    pub set: usize,
}

/// The sets that are shown, each once, and what each of them shows.
#[derive(Drop)]
pub struct Table<'a> {
    pub sets: Vec<Vec<usize>>,
    pub rows: Vec<Row<'a>>,
}
