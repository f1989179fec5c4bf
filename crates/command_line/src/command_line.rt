//! The command line, as clap reads it.

ghost use Rattle.std.specs.Prelude.{◌≡◌, IfOk, false};
ghost use Rattle.clap.specs.Words.{app_of, rule_of, shape_of, with_subcommand};
ghost use Rattle.clap.specs.declared.builder.command.Command.TheViews.{out-Command as fields_of};
ghost use Rattle.command_line.specs.CommandLine.{bare_line, command_line, field_argument, kind_argument};
ghost use Rattle.command_line.specs.CommandLine.{with_kind, with_kind_alone, with_size, with_studies, without_kind};

use clap::builder::ValueParser;
use clap::{Arg, Command};
use made_models::SIZE_LIMIT;
use std::alloc::{AllocError, Global};

// What help tells last.
const AFTER_HELP: &str =
    "The model is standard input, so a file is named behind <: mixed report netlist < circuit.cir\n\n\
    Statuses:\n\
    \x20 0        done\n\
    \x20 1        done, and the rank is below the number of equations or of unknowns, a problem has no\n\
    \x20          solution of its own, or a model needs no repair\n\
    \x20 2        these words ask for nothing\n\
    \x20 3        the input is refused: the place and the reason are noted\n\
    \x20 4, 5, 6  the input fails, the output fails, memory runs out\n\
    \x20 7        the certificate is not right\n\n\
    Version 1.0.0. docs/README.md in its repository lists the pages.";

// The same for one subcommand.
const AFTER_HELP_OF_ONE: &str =
    "The input is standard input, so a file is named behind <. `mixed help` has the statuses.";

/// The command `mixed`, which wants a subcommand. Words that name no subcommand, or a subcommand without its argument or
/// with more, and calls for help have no matches.
pub fn command_line<'a>(alloc: Global) -> Result<Command<'a>, AllocError>
    ensures { IfOk result (λ command. app_of command ≡ command_line) }
{
    let analyse = and_task(
        alloc,
        bare_line(alloc),
        "analyse",
        "Writes a certificate: which equations and unknowns belong together, in blocks that can be solved one after another",
    )?;
    let layer = and_task(
        alloc,
        analyse,
        "layer",
        "Writes the layered matrix: the equations with fixed numbers apart from those with free parameters",
    )?;
    let report = and_task(
        alloc,
        layer,
        "report",
        "Writes the rank, which equations are too many, and which unknowns are open",
    )?;
    let plan = and_task(
        alloc,
        report,
        "plan",
        "Writes in which steps the unknowns can be solved for, one after another",
    )?;
    let check = and_alone(
        alloc,
        plan,
        "check",
        "Tells whether a certificate, which it reads from standard input, is right for the input that it repeats",
    )?;
    let make = and_sized(
        alloc,
        check,
        "make",
        "Makes a model of so many equations, reads nothing, and writes its rank and the sizes of its parts",
    )?;
    let edit = and_alone(
        alloc,
        make,
        "edit",
        "Edits models and tells of them, by commands that it reads from standard input, a line each",
    )?;
    with_studies(alloc, edit)
}

// The command with the subcommands that study a model.
fn with_studies<'a>(alloc: Global, command: Command<'a>) -> Result<Command<'a>, AllocError>
    ensures { IfOk result (λ line. app_of line ≡ with_studies (app_of command.entry)) }
{
    let values = and_study(
        alloc,
        command,
        "values",
        "Writes the rank, and for each free parameter a value, 1 or 2, with which the rank is reached",
    )?;
    let solve = and_study(
        alloc,
        values,
        "solve",
        "Writes the unknowns that solve a model, by values and right sides in lines that stand before it",
    )?;
    let repair = and_study(
        alloc,
        solve,
        "repair",
        "Writes which equations to drop so that no two clash and the dropped ones cost least, by costs in lines that stand before the model",
    )?;
    and_study(
        alloc,
        repair,
        "conflict",
        "Writes for each equation that is too many with which others it clashes",
    )
}

// The command `mixed` without its subcommands.
fn bare_line<'a>(alloc: Global) -> Command<'a>
    ensures { app_of result ≡ bare_line }
{
    Command::new(alloc, "mixed")
        .about(
            "Tells which equations of a circuit or a plant determine which unknowns. Reads a model from standard input",
        )
        .after_help(AFTER_HELP)
        .subcommand_required(true)
        .arg_required_else_help(true)
}

// The command with one more subcommand, that of a task.
fn and_task<'a>(
    alloc: Global,
    command: Command<'a>,
    name: &'a str,
    about: &'a str,
) -> Result<Command<'a>, AllocError>
    ensures { IfOk result (λ line. app_of line ≡ with_subcommand (app_of command.entry) (with_kind name.now)) }
{
    command.subcommand(with_kind(alloc, name, about)?)
}

// The command with one more subcommand, which takes the kind of the input alone.
fn and_study<'a>(
    alloc: Global,
    command: Command<'a>,
    name: &'a str,
    about: &'a str,
) -> Result<Command<'a>, AllocError>
    ensures { IfOk result (λ line. app_of line ≡ with_subcommand (app_of command.entry) (with_kind_alone name.now)) }
{
    command.subcommand(with_kind_alone(alloc, name, about)?)
}

// The command with one more subcommand, which takes no argument.
fn and_alone<'a>(
    alloc: Global,
    command: Command<'a>,
    name: &'a str,
    about: &'a str,
) -> Result<Command<'a>, AllocError>
    ensures { IfOk result (λ line. app_of line ≡ with_subcommand (app_of command.entry) (without_kind name.now)) }
{
    command.subcommand(without_kind(alloc, name, about)?)
}

// The command with one more subcommand, which takes a size.
fn and_sized<'a>(
    alloc: Global,
    command: Command<'a>,
    name: &'a str,
    about: &'a str,
) -> Result<Command<'a>, AllocError>
    ensures { IfOk result (λ line. app_of line ≡ with_subcommand (app_of command.entry) (with_size name.now)) }
{
    command.subcommand(with_size(alloc, name, about)?)
}

// The field, which need not be named.
fn field<'a>(alloc: Global) -> Arg<'a>
    ensures local { result.global ≡ false }
    ensures rule { rule_of result ≡ field_argument }
{
    Arg::new(alloc, "FIELD").help(
        "The field of the constants, the residues modulo a prime: `65521`, which it is where none is named, or `2147483647`",
    )
}

// The kind of the input.
fn kind<'a>(alloc: Global) -> Arg<'a>
    ensures local { result.global ≡ false }
    ensures rule { rule_of result ≡ kind_argument }
{
    Arg::new(alloc, "KIND").required(true).help(
        "What the input is: `matrix`, a list of equations, `netlist`, a circuit, or `flowsheet`, a plant",
    )
}

// A subcommand that takes the kind of the input, and the field.
fn with_kind<'a>(alloc: Global, name: &'a str, about: &'a str) -> Result<Command<'a>, AllocError>
    ensures local { IfOk result (λ command. (fields_of command).has_globals ≡ false) }
    ensures shape { IfOk result (λ command. shape_of command ≡ with_kind name.now) }
{
    Command::new(alloc, name)
        .about(about)
        .after_help(AFTER_HELP_OF_ONE)
        .arg(kind(alloc))?
        .arg(field(alloc))
}

// A subcommand that takes the kind of the input alone.
fn with_kind_alone<'a>(
    alloc: Global,
    name: &'a str,
    about: &'a str,
) -> Result<Command<'a>, AllocError>
    ensures local { IfOk result (λ command. (fields_of command).has_globals ≡ false) }
    ensures shape { IfOk result (λ command. shape_of command ≡ with_kind_alone name.now) }
{
    Command::new(alloc, name)
        .about(about)
        .after_help(AFTER_HELP_OF_ONE)
        .arg(kind(alloc))
}

// A subcommand that takes the size of a made model, and the field.
fn with_size<'a>(alloc: Global, name: &'a str, about: &'a str) -> Result<Command<'a>, AllocError>
    ensures local { IfOk result (λ command. (fields_of command).has_globals ≡ false) }
    ensures shape { IfOk result (λ command. shape_of command ≡ with_size name.now) }
{
    let size = Arg::new(alloc, "N")
        .required(true)
        .value_parser(ValueParser::Unsigned(1, SIZE_LIMIT as u64))
        .help("How many equations the model has, and how many unknowns: 1 to 400");
    Command::new(alloc, name)
        .about(about)
        .arg(size)?
        .arg(field(alloc))
}

// A subcommand that takes no argument.
fn without_kind<'a>(alloc: Global, name: &'a str, about: &'a str) -> Result<Command<'a>, AllocError>
    ensures local { IfOk result (λ command. (fields_of command).has_globals ≡ false) }
    ensures shape { IfOk result (λ command. shape_of command ≡ without_kind name.now) }
{
    Ok(Command::new(alloc, name).about(about))
}
