//! The pairs that follow a step and the nodes of its variables, to be looked up.
ghost use Rattle.std.specs.Prelude.{◌≡◌, ◌↔◌, ◌∷◌, IfOk, OnOk, IsTrue, None, drop, false};
ghost use Rattle.mls_deriv.specs.inner.Tables.{AddsPair, AddsPut, Adds, Holds, IsTableOf, RemovesPair, put_in};

use crate::derivation::{Mode, SectionLine};
use crate::pair_set::PairSet;
use mls_base::memory::Memory;
use std::alloc::Global;
use std::collections::BTreeMap;

/// The nodes of variables, and the pairs of each mode.
#[derive(Drop)]
pub struct Table {
    puts: BTreeMap<usize, usize>,
    lr: PairSet,
    rl: PairSet,
    pp: PairSet,
}

impl Table {
    // No pair and no variable.
    fn new(alloc: Global) -> Table
        ensures pairs { (mode i j : _) → Holds result mode i j → ⊥ }
        ensures puts { (x : _) → put_in result x ≡ None }
    {
        Table {
            puts: BTreeMap::new(alloc),
            lr: PairSet::new(alloc),
            rl: PairSet::new(alloc),
            pp: PairSet::new(alloc),
        }
    }

    /// Whether the pair is there.
    pub fn holds(&self, mode: Mode, left: usize, right: usize) -> bool
        ensures { IsTrue result ↔ Holds self.now mode left right }
    {
        match mode {
            Mode::Lr => self.lr.has(left, right),
            Mode::Rl => self.rl.has(left, right),
            Mode::Pp => self.pp.has(left, right),
        }
    }

    /// The node of a variable.
    pub fn put(&self, variable: usize) -> Option<usize>
        ensures { result ≡ put_in self.now variable }
    {
        self.puts.get(&variable).copied()
    }

    /// Adds a pair, and answers whether it is new.
    ///
    /// # Errors
    ///
    /// `Memory` where memory is wanting.
    pub fn add_pair(&mut self, mode: Mode, left: usize, right: usize) -> Result<bool, Memory>
        ensures adds { OnOk result (AddsPair mode left right self.old self.new) }
        ensures new { IfOk result (λ is_new. is_new ≡ false → Holds self.old mode left right) }
    {
        let is_new = match mode {
            Mode::Lr => self.lr.insert(left, right)?,
            Mode::Rl => self.rl.insert(left, right)?,
            Mode::Pp => self.pp.insert(left, right)?,
        };
        Ok(is_new)
    }

    /// Takes out a pair, if it is there.
    pub fn remove(&mut self, mode: Mode, left: usize, right: usize)
        ensures { RemovesPair mode left right self.old self.new }
    {
        match mode {
            Mode::Lr => self.lr.remove(left, right),
            Mode::Rl => self.rl.remove(left, right),
            Mode::Pp => self.pp.remove(left, right),
        };
    }

    // Adds the node of a variable, unless it has one.
    fn add_put(&mut self, variable: usize, node: usize) -> Result<(), Memory>
        ensures { OnOk result (AddsPut variable node self.old self.new) }
    {
        if !self.puts.contains_key(&variable) {
            self.puts.insert(variable, node)?;
        }
        Ok(())
    }

    // Adds a line that belongs to a step, and answers whether it does.
    fn add(&mut self, line: &SectionLine) -> Result<bool, Memory>
        ensures { IfOk result (Adds line.now self.old self.new) }
    {
        match line {
            SectionLine::Let(_, _) => Ok(false),
            SectionLine::Step(_) => Ok(false),
            SectionLine::Put(variable, node) => {
                self.add_put(*variable, node.0)?;
                Ok(true)
            }
            SectionLine::Pair(mode, left, right) => {
                self.add_pair(*mode, left.0, right.0)?;
                Ok(true)
            }
        }
    }
}

/// What follows a step, which stands before these lines.
pub fn table_of(alloc: Global, lines: &[SectionLine]) -> Result<Table, Memory>
    ensures { IfOk result (IsTableOf lines.now) }
{
    let mut table = Table::new(alloc);
    for line in lines {
        if !table.add(line)? {
            return Ok(table);
        }
    }
    Ok(table)
}
