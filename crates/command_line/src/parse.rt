// The words read with `clap`.

ghost use Rattle.std.specs.Prelude.{◌≡◌, [], IfOk, IsErrOf, false, map};
ghost use Rattle.clap.specs.Walk.{texts};
ghost use Rattle.clap.specs.Words.{app_of, fault_of, subcommand_of, subcommand_rows_of};
ghost use Rattle.clap.specs.declared.builder.command.Command.TheViews.{out-Command};
ghost use Rattle.command_line.specs.Commands.{app, app_of_forms, command_app, with_options};
ghost use Rattle.command_line.specs.Rows.{form_of};

use crate::error::{WordsError, error_of};
use crate::words::Words;
use clap::{Arg, ArgMatches, Command};
use std::alloc::{AllocError, Global};

// A command, and the names of its options, each of which takes one value.
struct CommandRow {
    name: &'static str,
    required: &'static [&'static str],
    optional: &'static [&'static str],
}

const COMMANDS: [CommandRow; 7] = [
    CommandRow {
        name: "compile",
        required: &["object", "verilog"],
        optional: &["program", "hash-cap"],
    },
    CommandRow {
        name: "run",
        required: &[
            "object", "capture", "verilog", "answer", "verdicts", "final",
        ],
        optional: &["maps", "program", "hash-cap", "ifindex"],
    },
    CommandRow {
        name: "sim",
        required: &[
            "clocks", "object", "capture", "verilog", "answer", "verdicts", "final",
        ],
        optional: &["events", "maps", "program", "hash-cap", "ifindex"],
    },
    CommandRow {
        name: "ref",
        required: &["object", "capture", "answer", "verdicts", "final"],
        optional: &["maps", "program", "hash-cap", "ifindex"],
    },
    CommandRow {
        name: "report",
        required: &["object"],
        optional: &["program", "hash-cap"],
    },
    CommandRow {
        name: "prepare",
        required: &["object", "output"],
        optional: &["program", "hash-cap"],
    },
    CommandRow {
        name: "demo",
        required: &["seed", "packets"],
        optional: &[],
    },
];

// The command with more options.
fn with_options<'a>(
    alloc: Global,
    command: Command<'a>,
    required: bool,
    names: &[&'static str],
) -> Result<Command<'a>, AllocError>
    ensures app { IfOk result (λ c. app_of c ≡ with_options (app_of command.entry) required (texts names.now)) }
    ensures local { IfOk result (λ c. (out-Command c).has_globals ≡ (out-Command command.entry).has_globals) }
{
    let mut command = command;
    for name in names {
        let option = Arg::new(alloc, name).long(name).required(required);
        command = command.arg(option)?;
    }
    Ok(command)
}

// The command of a row.
fn command_of<'a>(alloc: Global, row: &CommandRow) -> Result<Command<'a>, AllocError>
    ensures app { IfOk result (λ c. app_of c ≡ command_app (form_of row.now)) }
    ensures local { IfOk result (λ c. (out-Command c).has_globals ≡ false) }
{
    let command = Command::new(alloc, row.name);
    let command = with_options(alloc, command, true, row.required)?;
    with_options(alloc, command, false, row.optional)
}

// The program, with a subcommand for each row.
fn program<'a>(alloc: Global, rows: &[CommandRow]) -> Result<Command<'a>, AllocError>
    ensures { IfOk result (λ c. app_of c ≡ app_of_forms (map form_of rows.now)) }
{
    let mut program = Command::new(alloc, "ehdl");
    for row in rows {
        program = program.subcommand(command_of(alloc, row)?)?;
    }
    Ok(program)
}

// The matches of the words.
pub(crate) fn parse<'a>(alloc: Global, words: &'a Words) -> Result<ArgMatches<'a>, WordsError>
    ensures ok { IfOk result (λ m. (fault_of app words.now ≡ []) × (subcommand_rows_of m ≡ subcommand_of app words.now)) }
    ensures usage { IsErrOf result WordsError.Usage → ¬ (fault_of app words.now ≡ []) }
{
    let program = program(alloc, &COMMANDS)?;
    match program.try_get_matches_from(words.as_slice()) {
        Ok(matches) => Ok(matches),
        Err(error) => Err(error_of(error.kind())),
    }
}
