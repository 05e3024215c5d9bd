//! Types from texts that are known to be such, and those of the operators.
ghost use Rattle.std.specs.Prelude.{◌≡◌, map, IfOk};
ghost use Rattle.mls_typetext.specs.Texts.{IsTypeText};
ghost use Rattle.mls_infer.specs.Inference.{AreNames, schemes_in};
ghost use Rattle.mls_typetext.specs.Schemes.{operator_types, type_scheme};
ghost use Rattle.mls_modules.specs.steps.Inferring.{IsType};

use mls_base::list::List;
use mls_base::memory::Memory;
use mls_typetext::from_text::read_type;
use mls_typetext::scheme::{Names, ReadScheme, TypeFault};
use std::alloc::Global;

// The types of the operators: of those that give a number, and of those that give a truth value.
const NUMBER: &[u8] = b"int -> int -> int";

const TRUTH: &[u8] = b"int -> int -> bool";

/// What the operators mean, each under its number: `+`, `-`, `*`, `<` and `==`.
pub fn operators(alloc: Global) -> Result<Names, Memory>
    ensures names { IfOk result AreNames }
    ensures schemes { IfOk result (λ names. schemes_in names ≡ map type_scheme operator_types) }
{
    let mut schemes = List::new(alloc);
    schemes.push(type_of(alloc, NUMBER)?)?;
    schemes.push(type_of(alloc, NUMBER)?)?;
    schemes.push(type_of(alloc, NUMBER)?)?;
    schemes.push(type_of(alloc, TRUTH)?)?;
    schemes.push(type_of(alloc, TRUTH)?)?;
    Ok(Names { schemes })
}

/// What a text that is a type is read as.
pub fn type_of(alloc: Global, text: &[u8]) -> Result<ReadScheme, Memory>
    requires { IsType text.now }
    ensures { IfOk result (λ read. IsTypeText text.now read) }
{
    match read_type(alloc, text) {
        Ok(read) => Ok(read),
        Err(fault) => {
            if fault == TypeFault::Memory {
                return Err(Memory);
            }
            unreachable!()
        }
    }
}
