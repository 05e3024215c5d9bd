//! The lines of sections behind their nodes.
ghost use Rattle.std.specs.Prelude.{◌≡◌, ◌↔◌, ◌+◌, get_or, IfOk, IsTrue};
ghost use Rattle.mls_deriv.specs.Spellings.{line_words};
ghost use Rattle.mls_deriv.specs.inner.Guesses.{line_word, line_guess, mode_guess, step_guess, env_guess};
ghost use Rattle.mls_deriv.specs.inner.Guesses.{rule_word_of, rule_by};
ghost use Rattle.mls_deriv.specs.inner.Readings.{IsLineRead, HasRisingBinders};

use crate::derivation::{BinderNode, BinderNodes, Mode, OwnStep, SectionLine, StepLine, StepRule};
use crate::env::LONG;
use crate::print::add_words;
use crate::steps::is_rising;
use crate::words::Words;
use mls_base::list::List;
use mls_base::memory::Memory;
use mls_book::book::NodeId;
use std::alloc::Global;

/// What the line spells, if it is a line that may stand behind the nodes of a section. The words of the line tell which
/// it may be, and the line is the one that this has. What stands in `text` is lost: it is the room for the words of
/// that one.
///
/// # Errors
///
/// `Memory` where memory is wanting.
pub fn read_line(
    alloc: Global,
    text: &mut Vec<u8>,
    line: &[u8],
) -> Result<Option<SectionLine>, Memory>
    ensures { IfOk result (IsLineRead line.now) }
{
    let words = Words::of(alloc, line)?;
    let found = line_of(alloc, &words)?;
    if !has_rising(&found) {
        return Ok(None);
    }
    if is_spelled(text, &found, line)? {
        Ok(Some(found))
    } else {
        Ok(None)
    }
}

// Whether the bytes are the words of the line, which are then in `text`.
fn is_spelled(text: &mut Vec<u8>, found: &SectionLine, line: &[u8]) -> Result<bool, Memory>
    ensures { IfOk result (λ same. IsTrue same ↔ (line.now ≡ line_words found.now)) }
{
    text.clear();
    add_words(text, found)?;
    Ok(text.as_slice() == line)
}

// Whether the binders of a step rise.
fn has_rising(found: &SectionLine) -> bool
    ensures { IsTrue result ↔ HasRisingBinders found.now }
{
    match found {
        SectionLine::Step(step) => is_rising(step.get().env.as_slice()),
        _ => true,
    }
}

// The kinds of lines, by their first words. A word that is none of theirs counts as that of a step.
#[derive(Clone, Copy)]
enum LineWord {
    Let,
    Step,
    Put,
    Pair,
}

// The kind of this word.
fn line_word(word: &[u8]) -> LineWord
    ensures { result ≡ line_word word.now }
{
    match word {
        b"let" => LineWord::Let,
        b"put" => LineWord::Put,
        b"pair" => LineWord::Pair,
        _ => LineWord::Step,
    }
}

// The line that these words may spell.
fn line_of(alloc: Global, words: &Words) -> Result<SectionLine, Memory>
    ensures { IfOk result (λ l. l ≡ line_guess words.now) }
{
    match line_word(words.word(0)) {
        LineWord::Let => Ok(SectionLine::Let(words.value(1), words.value(2))),
        LineWord::Put => Ok(SectionLine::Put(words.value(1), NodeId(words.value(2)))),
        LineWord::Pair => Ok(SectionLine::Pair(
            mode_of(words.word(1)),
            NodeId(words.value(2)),
            NodeId(words.value(3)),
        )),
        LineWord::Step => step_of(alloc, words),
    }
}

// The mode of this word.
fn mode_of(word: &[u8]) -> Mode
    ensures { result ≡ mode_guess word.now }
{
    match word {
        b"lr" => Mode::Lr,
        b"rl" => Mode::Rl,
        _ => Mode::Pp,
    }
}

// The step that these words may spell: behind the numbers of the rule comes the word `env`, and behind those of the
// environment `type`.
fn step_of(alloc: Global, words: &Words) -> Result<SectionLine, Memory>
    ensures { IfOk result (λ l. l ≡ step_guess words.now) }
{
    let numbers = words.values_until(alloc, 3, b"env")?;
    let count = numbers.len();
    let entries = words.values_until(alloc, sum(count, 4)?, b"type")?;
    let root = words.value(sum(sum(count, entries.len())?, 5)?);
    let step = StepLine {
        node: words.value(1),
        rule: rule_of(rule_word(words.word(2)), numbers),
        env: env_of(alloc, entries.as_slice())?,
        root: NodeId(root),
    };
    Ok(SectionLine::Step(OwnStep::new(alloc, step)?))
}

// The sum of two numbers; one that is too large is no number of words that memory holds.
fn sum(first: usize, second: usize) -> Result<usize, Memory>
    ensures { IfOk result (λ n. n ≡ first + second) }
{
    first.checked_add(second).ok_or(Memory)
}

// The environment of these binders and nodes, which is shared where it is long.
fn env_of(alloc: Global, numbers: &[usize]) -> Result<BinderNodes, Memory>
    ensures { IfOk result (λ env. env ≡ env_guess numbers.now) }
{
    let env = BinderNodes::of(entries_of(alloc, numbers)?);
    if env.len() < LONG {
        Ok(env)
    } else {
        env.share(alloc)
    }
}

// These binders with their nodes.
fn entries_of(alloc: Global, numbers: &[usize]) -> Result<Vec<BinderNode>, Memory>
    ensures { IfOk result (λ entries. entries.items ≡ env_guess numbers.now) }
{
    let mut entries = Vec::with_capacity(alloc, numbers.len() / 2)?;
    for i in 0..numbers.len() / 2 {
        entries.push(BinderNode {
            binder: numbers[2 * i],
            node: NodeId(numbers[2 * i + 1]),
        })?;
    }
    Ok(entries)
}

// The kinds of rules, by their words. A word that is none of theirs counts as that of a record.
#[derive(Clone, Copy)]
enum RuleWord {
    Var,
    Use,
    Name,
    Lit,
    Fun,
    App,
    Make,
    Proj,
    If,
    Let,
    Rec,
    Sub,
}

// The kind of this word.
fn rule_word(word: &[u8]) -> RuleWord
    ensures { result ≡ rule_word_of word.now }
{
    match word {
        b"var" => RuleWord::Var,
        b"use" => RuleWord::Use,
        b"name" => RuleWord::Name,
        b"lit" => RuleWord::Lit,
        b"fun" => RuleWord::Fun,
        b"app" => RuleWord::App,
        b"proj" => RuleWord::Proj,
        b"if" => RuleWord::If,
        b"let" => RuleWord::Let,
        b"rec" => RuleWord::Rec,
        b"sub" => RuleWord::Sub,
        _ => RuleWord::Make,
    }
}

// The rule of this kind with these numbers.
fn rule_of(kind: RuleWord, numbers: List<usize>) -> StepRule
    ensures { result ≡ rule_by kind numbers }
{
    let of = numbers.as_slice();
    match kind {
        RuleWord::Var => StepRule::Var,
        RuleWord::Use => StepRule::Use(number_at(of, 0)),
        RuleWord::Name => StepRule::Name(NodeId(number_at(of, 0))),
        RuleWord::Lit => StepRule::Lit,
        RuleWord::Fun => StepRule::Fun(number_at(of, 0)),
        RuleWord::App => StepRule::App(number_at(of, 0), number_at(of, 1)),
        RuleWord::Make => StepRule::Make(numbers),
        RuleWord::Proj => StepRule::Proj(number_at(of, 0)),
        RuleWord::If => StepRule::If(number_at(of, 0), number_at(of, 1), number_at(of, 2)),
        RuleWord::Let => StepRule::Let(number_at(of, 0), number_at(of, 1)),
        RuleWord::Rec => StepRule::Rec(number_at(of, 0)),
        RuleWord::Sub => StepRule::Sub(number_at(of, 0)),
    }
}

// The number at this place, or 0.
fn number_at(numbers: &[usize], i: usize) -> usize
    ensures { result ≡ get_or numbers.now i 0 }
{
    if i < numbers.len() { numbers[i] } else { 0 }
}
