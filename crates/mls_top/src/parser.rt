//! The parser of command lines, and the words that its answers stand for.
ghost use Rattle.std.specs.Prelude.{◌≡◌, ◌∷◌, [], false, IfOk};
ghost use Rattle.clap.specs.Walk.{rows_of, rule_of, texts};
ghost use Rattle.clap.specs.Simple.{app_of, shape_of};
ghost use Rattle.clap.specs.Matches.{found_of};
ghost use Rattle.clap.specs.declared.builder.command.Command.TheViews.{out-Command as fields_of};
ghost use Rattle.mls_top.specs.steps.CommandLines.{module_subcommands, one_word, program, program_of, subcommand};
ghost use Rattle.mls_top.specs.steps.CommandLines.{type_subcommands, words_of};

use clap::{Arg, ArgAction, ArgMatches};
use std::alloc::{AllocError, Global};

/// The parser, with a subcommand for each command.
pub(crate) fn program<'a>(alloc: Global) -> Result<clap::Command<'a>, AllocError>
    ensures { IfOk result (λ made. app_of made ≡ program) }
{
    of_modules(alloc)?.subcommand(with_two(alloc, "generate", "SEED", "COUNT")?)
}

// The parser with the subcommands of one module alone.
fn of_modules<'a>(alloc: Global) -> Result<clap::Command<'a>, AllocError>
    ensures { IfOk result (λ made. app_of made ≡ program_of module_subcommands) }
{
    of_types(alloc)?
        .subcommand(with_one(alloc, "derive", "NAME")?)?
        .subcommand(with_one(alloc, "verify", "NAME")?)
}

// The parser with the subcommands alone that are asked for the types of one module.
fn of_types<'a>(alloc: Global) -> Result<clap::Command<'a>, AllocError>
    ensures { IfOk result (λ made. app_of made ≡ program_of type_subcommands) }
{
    clap::Command::new(alloc, "mlsub")
        .no_binary_name(true)
        .disable_help_flag(true)
        .disable_help_subcommand(true)
        .disable_version_flag(true)
        .subcommand_required(true)
        .subcommand(with_one(alloc, "infer", "NAME")?)?
        .subcommand(with_one(alloc, "check", "NAME")?)
}

// A subcommand with one operand.
fn with_one<'a>(
    alloc: Global,
    name: &'a str,
    operand: &'a str,
) -> Result<clap::Command<'a>, AllocError>
    ensures shape { IfOk result (λ made. shape_of made ≡ subcommand name.now (operand.now ∷ [])) }
    ensures local { IfOk result (λ made. (fields_of made).has_globals ≡ false) }
{
    clap::Command::new(alloc, name).arg(one_word(alloc, operand))
}

// A subcommand with two operands.
fn with_two<'a>(
    alloc: Global,
    name: &'a str,
    first: &'a str,
    second: &'a str,
) -> Result<clap::Command<'a>, AllocError>
    ensures shape { IfOk result (λ made. shape_of made ≡ subcommand name.now (first.now ∷ second.now ∷ [])) }
    ensures local { IfOk result (λ made. (fields_of made).has_globals ≡ false) }
{
    clap::Command::new(alloc, name)
        .arg(one_word(alloc, first))?
        .arg(one_word(alloc, second))
}

// An operand that is one word and may not be left out.
fn one_word<'a>(alloc: Global, operand: &'a str) -> Arg<'a>
    ensures rule { rule_of result ≡ one_word operand.now }
    ensures local { result.global ≡ false }
{
    Arg::new(alloc, operand)
        .required(true)
        .action(ArgAction::Set)
}

/// The words that the name of a subcommand and its operands stand for, in the order of the command line.
pub(crate) fn words_of<'a>(
    alloc: Global,
    name: &'a str,
    operands: &ArgMatches<'a>,
) -> Result<Vec<&'a str>, AllocError>
    ensures { IfOk result (λ words. texts words.items ≡ words_of name.now (rows_of (found_of operands.now))) }
{
    let mut words = Vec::new(alloc);
    words.push(name)?;
    for operand in operands.ids() {
        if let Some(values) = operands.get_raw(operand) {
            words.extend_from_slice(values)?;
        }
    }
    Ok(words)
}
