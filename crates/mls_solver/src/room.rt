//! Rooms: the space in which the closed relation is found.
ghost use Rattle.std.specs.Prelude.{◌≡◌, ◌↔◌, ℕ, ◌+◌, ◌*◌, ◌<◌, ◌≤◌, ◌++◌, ◌∷◌, [], length, count_by, get_or, All};
ghost use Rattle.std.specs.Prelude.{Contains, IfOk, IsTrue, MatchOption};
ghost use Rattle.mls_solver.specs.Rooms.{Fits, Holds, is_positive, is_negative};
ghost use Rattle.mls_solver.specs.steps.Growth.{Relates};
ghost use Rattle.mls_solver.specs.steps.Numbers.{Inserts};
ghost use Rattle.mls_solver.specs.steps.Links.{IsLatest, first, keys_of, second};

use crate::cells::Cells;
use crate::links::Links;
use mls_automaton::automaton::{Automaton, Polarity};
use mls_automaton::state_set::StateId;
use mls_base::memory::Memory;
use std::alloc::Global;
use std::marker::Model;

/// Space for a relation between positive and negative states.
#[derive(Drop)]
pub struct Room {
    positives: usize,
    negatives: usize,
    places: Vec<usize>,
    rows: Vec<usize>,
    columns: Vec<usize>,
    row_count: usize,
    column_count: usize,
    cells: Cells,
    by_row: Links,
    by_column: Links,
}

impl Model for Room {
    ghost use Rattle.mls_solver.specs.Rooms.{Room};

    ghost Value = { Room };

    ghost use Rattle.mls_solver.specs.steps.RoomParts.{room_view, IsRoom};

    ghost view = { room_view };

    ghost invariant = { IsRoom };
}

// How many positive states there are.
fn count_positives(a: &Automaton) -> usize
    ensures { result ≡ count_by is_positive a.now.states }
{
    let mut count = 0usize;
    for s in 0..a.len() {
        match a.polarity(StateId(s)) {
            Polarity::Positive => count += 1,
            Polarity::Negative => {}
        }
    }
    count
}

// How many negative states there are.
fn count_negatives(a: &Automaton) -> usize
    ensures { result ≡ count_by is_negative a.now.states }
{
    let mut count = 0usize;
    for s in 0..a.len() {
        match a.polarity(StateId(s)) {
            Polarity::Positive => {}
            Polarity::Negative => count += 1,
        }
    }
    count
}

// So many times 0.
fn zeros(alloc: Global, count: usize) -> Result<Vec<usize>, Memory>
    ensures { IfOk result (λ numbers. length numbers.items ≡ count) }
{
    let numbers = vec![in alloc; 0usize; count]?;
    Ok(numbers)
}

impl Room {
    /// A room for the relations of automata with at most so many states of each polarity. It takes 13 bytes for each
    /// pair of a positive and a negative state, and two words and four bytes for each state.
    ///
    /// # Errors
    ///
    /// `Memory` where memory is wanting, and where there are more than 4294967295 pairs.
    pub fn new(alloc: Global, positives: usize, negatives: usize) -> Result<Room, Memory>
        ensures positives { IfOk result (λ room. room.positives ≡ positives) }
        ensures negatives { IfOk result (λ room. room.negatives ≡ negatives) }
        ensures pairs { IfOk result (λ room. room.pairs ≡ []) }
    {
        let limit = positives.checked_mul(negatives).ok_or(Memory)?;
        let states = positives.checked_add(negatives).ok_or(Memory)?;
        let cells = Cells::new(alloc, limit)?;
        Ok(Room {
            positives,
            negatives,
            places: zeros(alloc, states)?,
            rows: zeros(alloc, positives)?,
            columns: zeros(alloc, negatives)?,
            row_count: 0,
            column_count: 0,
            cells,
            by_row: Links::new(alloc, positives, limit)?,
            by_column: Links::new(alloc, negatives, limit)?,
        })
    }

    /// Whether there is space for the states of the automaton.
    pub fn fits(&self, a: &Automaton) -> bool
        ensures { IsTrue result ↔ Fits a.now self.now }
    {
        count_positives(a) <= self.positives && count_negatives(a) <= self.negatives
    }

    // The row of a state, if it has one.
    fn row_of(&self, s: StateId) -> Option<usize>
        ensures { MatchOption result (Contains self.now.rows s.0 → ⊥)
            (λ r. (r < length self.now.rows) × (get_or self.now.rows r 0 ≡ s.0)) }
    {
        let row = self.places.get(s.0).copied()?;
        if row < self.row_count && self.rows[row] == s.0 {
            Some(row)
        } else {
            None
        }
    }

    // The column of a state, if it has one.
    fn column_of(&self, s: StateId) -> Option<usize>
        ensures { MatchOption result (Contains self.now.columns s.0 → ⊥)
            (λ c. (c < length self.now.columns) × (get_or self.now.columns c 0 ≡ s.0)) }
    {
        let column = self.places.get(s.0).copied()?;
        if column < self.column_count && self.columns[column] == s.0 {
            Some(column)
        } else {
            None
        }
    }

    /// Whether the room holds the pair of these two states.
    pub fn holds(&self, positive: StateId, negative: StateId) -> bool
        ensures { IsTrue result ↔ Holds self.now positive.0 negative.0 }
    {
        match self.row_of(positive) {
            None => false,
            Some(row) => match self.column_of(negative) {
                None => false,
                Some(column) => self.cells.contains(row * self.negatives + column),
            },
        }
    }

    // How many pairs the room holds.
    pub fn len(&self) -> usize
        ensures len { result ≡ length self.now.pairs }
        ensures bound { result ≤ self.now.positives * self.now.negatives }
    {
        self.cells.len()
    }

    // The pair that was found at this place.
    pub fn pair(&self, i: usize) -> (StateId, StateId)
        requires { i < length self.now.pairs }
        ensures pair { (result.0.0, result.1.0) ≡ get_or self.now.pairs i (0, 0) }
        ensures row { Contains self.now.rows result.0.0 }
        ensures column { Contains self.now.columns result.1.0 }
    {
        let cell = self.cells.get(i);
        (
            StateId(self.rows[cell / self.negatives]),
            StateId(self.columns[cell % self.negatives]),
        )
    }

    // Holds the pair of these two states from now on.
    pub fn add(&mut self, positive: usize, negative: usize)
        requires row { Contains self.old.rows positive }
        requires column { Contains self.old.columns negative }
        ensures { Relates self.old self.new (λ p n. (p ≡ positive) × (n ≡ negative)) }
    {
        let row = self.places[positive];
        let column = self.places[negative];
        let cell = row * self.negatives + column;
        if self.cells.contains(cell) {
            return;
        }
        self.cells.push(cell);
        self.by_row.push(row);
        self.by_column.push(column);
    }

    // The number behind the place of the latest pair of a positive state, or 0.
    fn latest_of_positive(&self, p: StateId) -> usize
        ensures { IsLatest (keys_of first self.now) (length self.now.pairs) p.0 result }
    {
        match self.row_of(p) {
            None => 0,
            Some(row) => self.by_row.latest(row),
        }
    }

    // The number behind the place of the latest pair of a negative state, or 0.
    fn latest_of_negative(&self, n: StateId) -> usize
        ensures { IsLatest (keys_of second self.now) (length self.now.pairs) n.0 result }
    {
        match self.column_of(n) {
            None => 0,
            Some(column) => self.by_column.latest(column),
        }
    }

    // The number behind the place of the pair before this one with the same positive state, or 0.
    fn earlier_of_positive(&self, i: usize) -> usize
        requires { i < length self.now.pairs }
        ensures { IsLatest (keys_of first self.now) i (get_or (keys_of first self.now) i 0) result }
    {
        self.by_row.earlier(i)
    }

    // The number behind the place of the pair before this one with the same negative state, or 0.
    fn earlier_of_negative(&self, i: usize) -> usize
        requires { i < length self.now.pairs }
        ensures { IsLatest (keys_of second self.now) i (get_or (keys_of second self.now) i 0) result }
    {
        self.by_column.earlier(i)
    }

    // Relates one positive state to all to which another is related.
    pub fn copy_row(&mut self, from: usize, to: usize)
        requires from { Contains self.old.rows from }
        requires to { Contains self.old.rows to }
        ensures { Relates self.old self.new (λ p n. (p ≡ to) × Holds self.old from n) }
    {
        let mut at = self.latest_of_positive(StateId(from));
        while at > 0 {
            let (_, negative) = self.pair(at - 1);
            self.add(to, negative.0);
            at = self.earlier_of_positive(at - 1);
        }
    }

    // Relates all positive states that are related to one negative state to another.
    pub fn copy_column(&mut self, from: usize, to: usize)
        requires from { Contains self.old.columns from }
        requires to { Contains self.old.columns to }
        ensures { Relates self.old self.new (λ p n. (n ≡ to) × Holds self.old p from) }
    {
        let mut at = self.latest_of_negative(StateId(from));
        while at > 0 {
            let (positive, _) = self.pair(at - 1);
            self.add(positive.0, to);
            at = self.earlier_of_negative(at - 1);
        }
    }

    // Marks the negative states to which a positive one is related, in time that grows with their number.
    pub fn mark_below(&self, marks: &mut Cells, p: StateId)
        requires { (n : ℕ) → Holds self.now p.0 n → n < marks.old.limit }
        ensures { Inserts marks.old marks.new (λ n. Holds self.now p.0 n) }
    {
        let mut at = self.latest_of_positive(p);
        while at > 0 {
            let (_, negative) = self.pair(at - 1);
            marks.insert(negative.0);
            at = self.earlier_of_positive(at - 1);
        }
    }

    // Marks the positive states that are related to a negative one, in time that grows with their number.
    pub fn mark_above(&self, marks: &mut Cells, n: StateId)
        requires { (p : ℕ) → Holds self.now p n.0 → p < marks.old.limit }
        ensures { Inserts marks.old marks.new (λ p. Holds self.now p n.0) }
    {
        let mut at = self.latest_of_negative(n);
        while at > 0 {
            let (positive, _) = self.pair(at - 1);
            marks.insert(positive.0);
            at = self.earlier_of_negative(at - 1);
        }
    }

    // Holds no pair, and has no rows and no columns, from now on.
    pub fn clear(&mut self)
        ensures positives { self.new.positives ≡ self.old.positives }
        ensures negatives { self.new.negatives ≡ self.old.negatives }
        ensures rows { self.new.rows ≡ [] }
        ensures columns { self.new.columns ≡ [] }
        ensures pairs { self.new.pairs ≡ [] }
    {
        self.cells.clear();
        self.by_row.clear();
        self.by_column.clear();
        self.row_count = 0;
        self.column_count = 0;
    }

    // Gives a state a row of its own.
    pub fn add_row(&mut self, s: usize)
        requires space { length self.old.rows < self.old.positives }
        requires in_range { s < self.old.positives + self.old.negatives }
        requires rows { All (λ t. t < s) self.old.rows }
        requires columns { All (λ t. t < s) self.old.columns }
        requires empty { self.old.pairs ≡ [] }
        ensures positives { self.new.positives ≡ self.old.positives }
        ensures negatives { self.new.negatives ≡ self.old.negatives }
        ensures rows { self.new.rows ≡ self.old.rows ++ s ∷ [] }
        ensures columns { self.new.columns ≡ self.old.columns }
        ensures pairs { self.new.pairs ≡ [] }
    {
        self.places[s] = self.row_count;
        self.rows[self.row_count] = s;
        self.row_count += 1;
    }

    // Gives a state a column of its own.
    pub fn add_column(&mut self, s: usize)
        requires space { length self.old.columns < self.old.negatives }
        requires in_range { s < self.old.positives + self.old.negatives }
        requires rows { All (λ t. t < s) self.old.rows }
        requires columns { All (λ t. t < s) self.old.columns }
        requires empty { self.old.pairs ≡ [] }
        ensures positives { self.new.positives ≡ self.old.positives }
        ensures negatives { self.new.negatives ≡ self.old.negatives }
        ensures rows { self.new.rows ≡ self.old.rows }
        ensures columns { self.new.columns ≡ self.old.columns ++ s ∷ [] }
        ensures pairs { self.new.pairs ≡ [] }
    {
        self.places[s] = self.column_count;
        self.columns[self.column_count] = s;
        self.column_count += 1;
    }
}
