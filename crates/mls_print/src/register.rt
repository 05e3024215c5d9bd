//! The sets that are shown, with their numbers.
ghost use Rattle.std.specs.Prelude.{◌≡◌, [], option_map, IfOk, OnOk};
ghost use Rattle.mls_print.specs.steps.Joining.{arms_in};
ghost use Rattle.mls_print.specs.steps.Grouping.{fields_in};
ghost use Rattle.mls_print.specs.steps.Registers.{IsRegister, sets_in, Numbers, NumbersArms, NumbersFields};
ghost use Rattle.mls_print.specs.steps.Registers.{NumbersRecord};

use crate::join::JoinedArms;
use crate::members::Members;
use crate::record::JoinedField;
use crate::row::{RowArms, RowField};
use mls_base::memory::Memory;
use std::alloc::Global;
use std::collections::BTreeMap;

/// The sets in the order in which they were found, and the number of each.
#[derive(Drop)]
pub struct Register {
    pub sets: Vec<Vec<usize>>,
    pub numbers: BTreeMap<Members, usize>,
}

impl Register {
    /// No set. It allocates nothing.
    pub fn new(alloc: Global) -> Register
        ensures register { IsRegister result }
        ensures sets { sets_in result ≡ [] }
    {
        Register {
            sets: Vec::new(alloc),
            numbers: BTreeMap::new(alloc),
        }
    }

    /// The number of the set that has these members. A new set gets the next number.
    pub fn number_of(&mut self, states: Vec<usize>) -> Result<usize, Memory>
        requires { IsRegister self.old }
        ensures register { OnOk result (IsRegister self.new) }
        ensures number { IfOk result (Numbers states.items (sets_in self.old) (sets_in self.new)) }
    {
        let members = Members::of(states);
        if let Some(number) = self.numbers.get(&members) {
            return Ok(*number);
        }
        let number = self.sets.len();
        self.sets.push(members.to_vec()?)?;
        self.numbers.insert(members, number)?;
        Ok(number)
    }

    /// The numbers of the sets of a function.
    pub fn numbered_arms(&mut self, arms: Option<JoinedArms>) -> Result<Option<RowArms>, Memory>
        requires { IsRegister self.old }
        ensures register { OnOk result (IsRegister self.new) }
        ensures arms { IfOk result (NumbersArms (option_map arms_in arms) (sets_in self.old) (sets_in self.new)) }
    {
        match arms {
            None => Ok(None),
            Some(arms) => {
                let domain = self.number_of(arms.domain)?;
                let codomain = self.number_of(arms.codomain)?;
                Ok(Some(RowArms { domain, codomain }))
            }
        }
    }

    /// The numbers of the sets of a record.
    pub fn numbered_record<'a>(
        &mut self,
        alloc: Global,
        fields: Option<Vec<JoinedField<'a>>>,
    ) -> Result<Option<Vec<RowField<'a>>>, Memory>
        requires { IsRegister self.old }
        ensures register { OnOk result (IsRegister self.new) }
        ensures fields { IfOk result (NumbersRecord (option_map fields_in fields.entry) (sets_in self.old)
            (sets_in self.new)) }
    {
        match fields {
            None => Ok(None),
            Some(all) => {
                let row = self.numbered_fields(alloc, all)?;
                Ok(Some(row))
            }
        }
    }

    // The numbers of the sets of fields.
    fn numbered_fields<'a>(
        &mut self,
        alloc: Global,
        fields: Vec<JoinedField<'a>>,
    ) -> Result<Vec<RowField<'a>>, Memory>
        requires { IsRegister self.old }
        ensures register { OnOk result (IsRegister self.new) }
        ensures fields { IfOk result (λ row. NumbersFields (fields_in fields.entry) (sets_in self.old)
            (sets_in self.new) row.items) }
    {
        let mut row = Vec::new(alloc);
        for field in fields {
            let set = self.number_of(field.states)?;
            row.push(RowField {
                label: field.label,
                set,
            })?;
        }
        Ok(row)
    }
}
