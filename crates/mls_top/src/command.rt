//! From words to a command.
ghost use Rattle.std.specs.Prelude.{◌≡◌, map, string_bytes, IfOk, IsTrue};
ghost use Rattle.std.specs.List.{list_any};
ghost use Rattle.clap.specs.Walk.{texts};
ghost use Rattle.clap.specs.Simple.{subcommand_of, subcommand_rows_of};
ghost use Rattle.mls_top.specs.Commands.{command_of, command_of_two, command_of_three, command_named, is_name_word};
ghost use Rattle.mls_top.specs.steps.CommandLines.{is_option, program};

use crate::numbers::number_between;
use crate::parser::{program, words_of};
use clap::ArgMatches;
use clap::error::ErrorKind;
use mls_base::memory::Memory;
use mls_base::spelling::is_name;
use mls_book::name::Name;
use std::alloc::{AllocError, Global};

/// A command with its operands.
#[derive(Drop)]
pub enum Command {
    /// Prints the signature of the module of this name.
    Infer(Name),
    /// Compares the module of this name with its interface.
    Check(Name),
    /// Prints a derivation of the types of the module of this name.
    Derive(Name),
    /// Checks the derivation for the module of this name.
    Verify(Name),
    /// Generates a module from a seed below 2147483648, with 1 to 10000 bindings, and infers its signature.
    Generate { seed: u32, count: usize },
}

/// The command that the words are, where they are one.
pub fn command_of(alloc: Global, words: &Vec<String>) -> Result<Option<Command>, Memory>
    ensures { IfOk result (λ command. command ≡ command_of (map string_bytes words.now.items)) }
{
    let words = texts_of(alloc, words.as_slice())?;
    command_of_texts(alloc, words.as_slice())
}

// The words as texts.
fn texts_of<'a>(alloc: Global, words: &'a [String]) -> Result<Vec<&'a str>, AllocError>
    ensures { IfOk result (λ made. texts made.items ≡ map string_bytes words.now) }
{
    let mut made = Vec::new(alloc);
    for word in words {
        made.push(word.as_str())?;
    }
    Ok(made)
}

// Whether a word begins with a hyphen.
fn has_option(words: &[&str]) -> bool
    ensures { result ≡ list_any (λ word. is_option word.now) words.now }
{
    words.iter().any(|word| is_option(word))
}

// Whether the first byte is a hyphen.
fn is_option(word: &str) -> bool
    ensures { result ≡ is_option word.now }
{
    word.as_bytes().first() == Some(&b'-')
}

// The command that these words are. Without words, or with one that begins with a hyphen, nothing is parsed.
fn command_of_texts(alloc: Global, words: &[&str]) -> Result<Option<Command>, Memory>
    ensures { IfOk result (λ command. command ≡ command_of (texts words.now)) }
{
    if words.is_empty() || has_option(words) {
        return Ok(None);
    }
    match program(alloc)?.try_get_matches_from(words) {
        Ok(matches) => command_met(alloc, words, &matches),
        Err(error) => match error.kind() {
            ErrorKind::OutOfMemory => Err(Memory),
            _ => Ok(None),
        },
    }
}

// The command that the parser found, where what it found stands for all the words.
fn command_met(
    alloc: Global,
    words: &[&str],
    matches: &ArgMatches,
) -> Result<Option<Command>, Memory>
    requires { subcommand_rows_of matches.now ≡ subcommand_of program (texts words.now) }
    ensures { IfOk result (λ command. command ≡ command_of (texts words.now)) }
{
    let Some((name, operands)) = matches.subcommand() else {
        return Ok(None);
    };
    let found = words_of(alloc, name, operands)?;
    if found.as_slice() == words {
        command_found(alloc, found.as_slice())
    } else {
        Ok(None)
    }
}

// The command of these words.
fn command_found(alloc: Global, words: &[&str]) -> Result<Option<Command>, Memory>
    ensures { IfOk result (λ command. command ≡ command_of (texts words.now)) }
{
    match words {
        [first, second] => command_of_two(alloc, first, second),
        [first, second, third] => Ok(command_of_three(first, second, third)),
        _ => Ok(None),
    }
}

// The command of two words.
fn command_of_two(alloc: Global, first: &str, second: &str) -> Result<Option<Command>, Memory>
    ensures { IfOk result (λ command. command ≡ command_of_two first.now second.now) }
{
    if is_name(second.as_bytes()) {
        command_named(alloc, first, second)
    } else {
        Ok(None)
    }
}

// The command of this name for the module that the second word names.
fn command_named(alloc: Global, first: &str, second: &str) -> Result<Option<Command>, Memory>
    requires { IsTrue (is_name_word second.now) }
    ensures { IfOk result (λ command. command ≡ command_named first.now second.now) }
{
    match first {
        "infer" => Ok(Some(Command::Infer(Name::new(alloc, second.as_bytes())?))),
        "check" => Ok(Some(Command::Check(Name::new(alloc, second.as_bytes())?))),
        "derive" => Ok(Some(Command::Derive(Name::new(alloc, second.as_bytes())?))),
        "verify" => Ok(Some(Command::Verify(Name::new(alloc, second.as_bytes())?))),
        _ => Ok(None),
    }
}

// The command of three words.
fn command_of_three(first: &str, seed: &str, count: &str) -> Option<Command>
    ensures { result ≡ command_of_three first.now seed.now count.now }
{
    if first != "generate" {
        return None;
    }
    let seed = number_between(seed.as_bytes(), 0, 2_147_483_647)?;
    let count = number_between(count.as_bytes(), 1, 10_000)? as usize;
    Some(Command::Generate { seed, count })
}
