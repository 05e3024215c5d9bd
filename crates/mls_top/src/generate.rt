//! The signature of a generated module. No store is in scope here.
ghost use Rattle.std.specs.Prelude.{◌≡◌, ◌≤◌, IfOk, IfErr};
ghost use Rattle.mls_top.specs.steps.Answering.{IsAskedOfNone, IsAskedStopOfNone};

use crate::answer::{Answer, Stop};
use crate::command::Command;
use crate::generator::generate;
use crate::infer::printed_signature;
use crate::lines::generated_line;
use crate::reading::module_of;
use crate::status::Status;
use std::alloc::Global;

/// The answer of `generate`: that of `infer` over a store where just the generated text is, and in place of a signature
/// how long it and the text are.
pub fn generate_and_infer(alloc: Global, seed: u32, count: usize) -> Result<Answer, Stop>
    requires some { 1 ≤ count }
    requires short { count ≤ 10000 }
    ensures answer { IfOk result (IsAskedOfNone (Command.Generate seed count)) }
    ensures stop { IfErr result (IsAskedStopOfNone (Command.Generate seed count)) }
{
    let file = "generated.ml";
    let text = generate(alloc, seed, count)?;
    let source = module_of(alloc, file, text.as_slice())?;
    let printed = printed_signature(alloc, file, text.as_slice(), &source, &[])?;
    Ok(Answer {
        status: Status::Done,
        text: generated_line(alloc, count, text.len(), printed.len())?,
    })
}
