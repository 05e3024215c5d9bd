//! Which blocks of a partition are still to split the others. What it answers decides how long a refinement takes.

use mls_base::list::List;
use mls_base::memory::Memory;
use std::alloc::Global;

/// For each block how many nodes it has, the block that it was split off, and whether it waits.
#[derive(Drop)]
pub struct Agenda {
    sizes: Vec<usize>,
    origins: Vec<usize>,
    waits: Vec<bool>,
    waiting: Vec<usize>,
}

impl Agenda {
    /// All of these blocks wait.
    pub fn of(alloc: Global, members: &[List<usize>]) -> Result<Agenda, Memory> {
        let mut agenda = Agenda {
            sizes: Vec::new(alloc),
            origins: Vec::new(alloc),
            waits: Vec::new(alloc),
            waiting: Vec::new(alloc),
        };
        for block in 0..members.len() {
            agenda.open(block, members[block].len())?;
            agenda.wait(block)?;
        }
        Ok(agenda)
    }

    /// The next block is one of so many nodes, split off this one.
    pub fn open(&mut self, origin: usize, size: usize) -> Result<(), Memory> {
        self.sizes.push(size)?;
        self.origins.push(origin)?;
        self.waits.push(false)?;
        Ok(())
    }

    /// A node goes from one block to another.
    pub fn transfer(&mut self, from: usize, to: usize) {
        if let Some(size) = self.sizes.get_mut(from) {
            *size = size.saturating_sub(1);
        }
        if let Some(size) = self.sizes.get_mut(to) {
            *size = size.saturating_add(1);
        }
    }

    /// A block that waits no longer, if there is one.
    pub fn next(&mut self) -> Option<usize> {
        let block = self.waiting.pop()?;
        if let Some(waits) = self.waits.get_mut(block) {
            *waits = false;
        }
        Some(block)
    }

    /// Of each block from this number on and the block that it was split off, the smaller one waits. Where the other
    /// waits, both do.
    pub fn add_from(&mut self, first: usize) -> Result<(), Memory> {
        for block in first..self.sizes.len() {
            self.add(block)?;
        }
        Ok(())
    }

    fn add(&mut self, block: usize) -> Result<(), Memory> {
        let origin = number_at(self.origins.as_slice(), block);
        let size = number_at(self.sizes.as_slice(), block);
        let left = number_at(self.sizes.as_slice(), origin);
        if !self.is_waiting(origin) && left < size {
            self.wait(origin)
        } else {
            self.wait(block)
        }
    }

    fn is_waiting(&self, block: usize) -> bool {
        match self.waits.get(block) {
            Some(waits) => *waits,
            None => false,
        }
    }

    fn wait(&mut self, block: usize) -> Result<(), Memory> {
        self.waiting.push(block)?;
        if let Some(waits) = self.waits.get_mut(block) {
            *waits = true;
        }
        Ok(())
    }
}

fn number_at(numbers: &[usize], i: usize) -> usize {
    match numbers.get(i) {
        Some(number) => *number,
        None => 0,
    }
}
