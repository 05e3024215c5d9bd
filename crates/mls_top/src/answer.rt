//! The middle phase of a run: the answer of a command. A new command adds a case here.
ghost use Rattle.std.specs.Prelude.{◌≡◌, ℕ, IfOk, IfErr, IsTrue};
ghost use Rattle.mls_io.specs.Stores.{Follows};
ghost use Rattle.mls_top.specs.Answers.{IsAnswerFor};
ghost use Rattle.mls_top.specs.Statuses.{is_answer};
ghost use Rattle.mls_top.specs.steps.Answering.{IsCaused, IsAsked, IsAskedStop, IsWithinLimits};

use crate::check::check;
use crate::command::Command;
use crate::derive::derive;
use crate::generate::generate_and_infer;
use crate::infer::infer;
use crate::status::Status;
use crate::verify::verify;
use mls_base::memory::Memory;
use mls_io::store::Store;
use std::alloc::Global;

/// What a command answers: a status, and the text to print.
#[derive(Drop)]
pub struct Answer {
    /// How the command ends, if its text is written whole.
    pub status: Status,
    /// The bytes to print, with a newline after each line.
    pub text: Vec<u8>,
}

/// Why a command has no answer.
#[derive(Clone, Copy, Debug, PartialEq, Eq)]
pub enum Halt {
    /// The store failed.
    ReadFault,
    /// Memory was wanting.
    Memory,
}

/// Why a command does no more of its work.
#[derive(Drop)]
pub enum Stop {
    /// Something is refused, and this is told of it.
    Refused(Answer),
    /// There is no answer.
    Halt(Halt),
}

impl From<Memory> for Stop {
    ghost use Rattle.mls_top.specs.declared.answer.Stop.TheVariants.{Halt as Halted};
    ghost use Rattle.mls_top.specs.declared.answer.Halt.TheVariants.{Memory as WantOfMemory};

    ghost from_gives = { λ _ e. e ≡ Halted WantOfMemory };

    fn from(_e: Memory) -> Stop {
        Stop::Halt(Halt::Memory)
    }
}

/// The answer of a command over a store.
pub fn answer_to<S: Store>(alloc: Global, command: &Command, store: &mut S) -> Result<Answer, Halt>
    requires limits { IsWithinLimits command.now }
    ensures follows { Follows (S.holdings store.old) (S.holdings store.new) }
    ensures alone { (seed count : ℕ) → command.now ≡ Command.Generate seed count
        → S.holdings store.new ≡ S.holdings store.old }
    ensures answer { IfOk result (λ answer. IsAnswerFor
        (S.holdings store.old).files command.now answer.status answer.text.items) }
    ensures caused { IsCaused (S.holdings store.old) (S.holdings store.new) result }
    ensures status { IfOk result (λ answer. IsTrue (is_answer answer.status)) }
{
    match asked(alloc, command, store) {
        Ok(answer) => Ok(answer),
        Err(Stop::Refused(answer)) => Ok(answer),
        Err(Stop::Halt(halt)) => Err(halt),
    }
}

// What a command asks for over a store.
fn asked<S: Store>(alloc: Global, command: &Command, store: &mut S) -> Result<Answer, Stop>
    requires limits { IsWithinLimits command.now }
    ensures follows { Follows (S.holdings store.old) (S.holdings store.new) }
    ensures alone { (seed count : ℕ) → command.now ≡ Command.Generate seed count
        → S.holdings store.new ≡ S.holdings store.old }
    ensures answer { IfOk result (IsAsked (S.holdings store.old) (S.holdings store.new) command.now) }
    ensures stop { IfErr result (IsAskedStop (S.holdings store.old) (S.holdings store.new) command.now) }
{
    match command {
        Command::Infer(name) => infer(alloc, store, name),
        Command::Check(name) => check(alloc, store, name),
        Command::Derive(name) => derive(alloc, store, name),
        Command::Verify(name) => verify(alloc, store, name),
        Command::Generate { seed, count } => generate_and_infer(alloc, *seed, *count),
    }
}
