//! The lines of a section, read one behind another.
ghost use Rattle.std.specs.Prelude.{◌≡◌, ◌↔◌, ◌++◌, [], codes, All, IfOk, IfSome, IsTrue, OnOk};
ghost use Rattle.std.specs.List.{flat_map};
ghost use Rattle.mls_deriv.specs.declared.derivation.SectionLine.TheVariants.{Step};
ghost use Rattle.mls_deriv.specs.Spellings.{entry_words, line_words, number_word};
ghost use Rattle.mls_deriv.specs.Forms.{IsEntryForm, IsLineForm, IsStepForm};
ghost use Rattle.mls_deriv.specs.Steps.{IsRising};
ghost use Rattle.mls_deriv.specs.inner.Readings.{IsLineRead};

use crate::derivation::{BinderNodes, OwnStep, SectionLine};
use crate::env::LONG;
use crate::front::behind;
use crate::print::add_env;
use crate::section_line::read_line;
use itoa::Buffer;
use mls_base::memory::Memory;
use mls_book::book::NodeId;
use std::alloc::Global;
use std::marker::Model;

/// The long environment that was read last, with its words: steps behind one another often have the same one, whose
/// numbers are then not read again. Contracts see the binders with their nodes.
#[derive(Drop)]
pub(crate) struct LineReader {
    env: BinderNodes,
    words: Vec<u8>,
    // Room for a line without its environment.
    short: Vec<u8>,
    // Room for the words of what a line is read as.
    text: Vec<u8>,
}

impl Model for LineReader {
    ghost use Rattle.std.specs.Prelude.{◌≡◌, All, List};
    ghost use Rattle.std.specs.List.{flat_map};
    ghost use Rattle.mls_deriv.specs.declared.derivation.BinderNode.{BinderNode};
    ghost use Rattle.mls_deriv.specs.Spellings.{entry_words};
    ghost use Rattle.mls_deriv.specs.Forms.{IsEntryForm};
    ghost use Rattle.mls_deriv.specs.Steps.{IsRising};

    ghost Value = { List BinderNode };

    ghost view = { λ r. r.env };

    ghost invariant = { λ r. (r.words.items ≡ flat_map entry_words r.env) × All IsEntryForm r.env × IsRising r.env };
}

impl LineReader {
    /// No environment was read. It allocates nothing.
    pub(crate) fn new(alloc: Global) -> LineReader
        ensures { result ≡ [] }
    {
        LineReader {
            env: BinderNodes::new(alloc),
            words: Vec::new(alloc),
            short: Vec::new(alloc),
            text: Vec::new(alloc),
        }
    }

    /// What the line spells, if it is a line that may stand behind the nodes of a section.
    ///
    /// # Errors
    ///
    /// `Memory` where memory is wanting.
    pub(crate) fn read(&mut self, alloc: Global, line: &[u8]) -> Result<Option<SectionLine>, Memory>
        ensures { IfOk result (IsLineRead line.now) }
    {
        if let Some(step) = self.known(alloc, line)? {
            return Ok(Some(SectionLine::Step(step)));
        }
        match read_line(alloc, &mut self.text, line)? {
            None => Ok(None),
            Some(found) => {
                self.note(alloc, &found)?;
                Ok(Some(found))
            }
        }
    }

    // The step that the line spells, if it has the environment that was read last.
    fn known(&mut self, alloc: Global, line: &[u8]) -> Result<Option<OwnStep>, Memory>
        ensures { IfOk result (λ found. IfSome found (λ step. IsStepForm step
            × (line.now ≡ line_words (Step step)))) }
    {
        if self.env.is_empty() || line.len() <= self.words.len() {
            return Ok(None);
        }
        match cut_at_env(line) {
            None => Ok(None),
            Some((front, rest)) => match behind(rest, self.words.as_slice()) {
                None => Ok(None),
                Some(back) => self.step_between(alloc, front, back),
            },
        }
    }

    // The step with that environment, between these two parts of its line: it is the step that the line without the
    // environment spells, with the environment put in.
    fn step_between(
        &mut self,
        alloc: Global,
        front: &[u8],
        back: &[u8],
    ) -> Result<Option<OwnStep>, Memory>
        ensures { IfOk result (λ found. IfSome found (λ step. IsStepForm step
            × (front.now ++ flat_map entry_words self.old ++ back.now ≡ line_words (Step step)))) }
    {
        self.short.clear();
        self.short.extend_from_slice(front)?;
        self.short.extend_from_slice(back)?;
        let mut step = match read_line(alloc, &mut self.text, self.short.as_slice())? {
            Some(SectionLine::Step(step)) => step,
            _ => return Ok(None),
        };
        if !step.get().env.is_empty() || !is_type(back, step.get().root) {
            return Ok(None);
        }
        step.set_env(self.env.copy(alloc)?);
        Ok(Some(step))
    }

    // Keeps the environment of a line, if it has a long one.
    fn note(&mut self, alloc: Global, line: &SectionLine) -> Result<(), Memory>
        requires { IsLineForm line.now }
    {
        match line {
            SectionLine::Step(step) => {
                if step.get().env.len() < LONG {
                    Ok(())
                } else {
                    self.keep(alloc, &step.get().env)
                }
            }
            _ => Ok(()),
        }
    }

    // Keeps an environment in place of the last one.
    fn keep(&mut self, alloc: Global, env: &BinderNodes) -> Result<(), Memory>
        requires forms { All IsEntryForm env.now }
        requires rising { IsRising env.now }
        ensures { OnOk result (self.new ≡ env.now) }
    {
        let mut words = Vec::new(alloc);
        add_env(&mut words, env.as_slice())?;
        self.env = env.copy(alloc)?;
        self.words = words;
        Ok(())
    }
}

// The line up to its first word that begins with `env`, with these three letters, and what stands behind them.
fn cut_at_env(line: &[u8]) -> Option<(&[u8], &[u8])>
    ensures { IfSome result (λ parts. line.now ≡ parts.0.now ++ parts.1.now) }
{
    for at in 0..line.len() {
        if line[at] == b' ' && line[at..].starts_with(b" env") {
            return line.split_at_checked(at + 4);
        }
    }
    None
}

// Whether the bytes are the words of this type.
fn is_type(bytes: &[u8], root: NodeId) -> bool
    ensures { IsTrue result ↔ (bytes.now ≡ codes " type" ++ number_word root.0) }
{
    match behind(bytes, b" type ") {
        None => false,
        Some(word) => word == Buffer::new().format(root.0).as_bytes(),
    }
}
