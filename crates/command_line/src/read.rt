// What the words ask for.

ghost use Rattle.std.specs.Prelude.{◌≡◌, IfOk, IfSome, IfNone, IsErrOf, codes};
ghost use Rattle.command_line.specs.Request.{Request, request_of};
ghost use Rattle.command_line.specs.Means.{Means};
ghost use Rattle.command_line.specs.AsksFor.{AsksFor, AsksForHelp, TakesPlain};
ghost use Rattle.command_line.specs.Rows.{values_from};

use crate::command::Command;
use crate::error::WordsError;
use crate::parse::parse;
use crate::values::{
    possible_number, read_choice, read_files, read_ifindex, read_text, required, required_number,
};
use crate::words::Words;
use clap::ArgMatches;
use std::alloc::Global;

const CLOCK_LIMIT: u32 = 500_000_000;

const PACKET_LIMIT: u32 = 100_000;

/// What the words ask for: they are the program's name, a command, and its options with their values, as `clap` takes them.
///
/// - `compile --object A --verilog B`
/// - `run --object A --capture C --verilog D --answer E --verdicts F --final G`
/// - `sim`, as `run`, and `--clocks N`, at most 500,000,000; it may have `--events N`, at most 4,294,967,295
/// - `ref`, as `run` without `--verilog`
/// - `report --object A`
/// - `prepare --object A --output B`
/// - `demo --seed N --packets N`, at most 4,294,967,295 and at most 100,000
///
/// Each but `demo` may have `--program NAME` and `--hash-cap N`, 1 to 1,024 and without it 256; `run`, `sim` and `ref` may have `--maps B`, and
/// `--ifindex N`, at most 4,294,967,295 and without it 1. A number stands in decimal without a needless zero in front, and no two file names of a command
/// are equal. All else is [`WordsError::Usage`], a request for help too.
pub fn read_words<'a>(alloc: Global, words: &'a Words) -> Result<Command<'a>, WordsError>
    ensures ok { IfOk result (λ command. AsksFor words.now (request_of command)) }
    ensures usage { IsErrOf result WordsError.Usage → (request : Request) → ¬ AsksFor words.now request }

    // Words ask for one thing at most.
    ensures once { (a b : Request) → AsksFor words.now a → AsksFor words.now b → a ≡ b }

    // Plain words are taken, with their values.
    ensures plain { TakesPlain words.now }

    // Requests for help ask for nothing.
    ensures help { AsksForHelp words.now → (request : Request) → ¬ AsksFor words.now request }
{
    read_matches(alloc, words)
}

fn read_matches<'a>(alloc: Global, words: &'a Words) -> Result<Command<'a>, WordsError>
    ensures ok { IfOk result (λ command. AsksFor words.now (request_of command)) }
    ensures usage { IsErrOf result WordsError.Usage → (request : Request) → ¬ AsksFor words.now request }
{
    let matches = parse(alloc, words)?;
    let Some((name, options)) = matches.subcommand() else {
        return Err(WordsError::Usage);
    };
    match read_command(name, options) {
        Some(command) => Ok(command),
        None => Err(WordsError::Usage),
    }
}

// What a command with its matches asks for.
fn read_command<'a>(name: &str, matches: &ArgMatches<'a>) -> Option<Command<'a>>
    ensures some { IfSome result (λ command. Means name.now (values_from matches.now) (request_of command)) }
    ensures none { IfNone result ((request : Request) → ¬ Means name.now (values_from matches.now) request) }
{
    if name == "compile" {
        return read_compile(name, matches);
    }
    if name == "run" {
        return read_run(name, matches);
    }
    if name == "sim" {
        return read_sim(name, matches);
    }
    if name == "ref" {
        return read_ref(name, matches);
    }
    if name == "report" {
        return read_report(name, matches);
    }
    if name == "prepare" {
        return read_prepare(name, matches);
    }
    if name == "demo" {
        return read_demo(name, matches);
    }
    None
}

fn read_compile<'a>(name: &str, matches: &ArgMatches<'a>) -> Option<Command<'a>>
    requires { name.now ≡ codes "compile" }
    ensures some { IfSome result (λ command. Means name.now (values_from matches.now) (request_of command)) }
    ensures none { IfNone result ((request : Request) → ¬ Means name.now (values_from matches.now) request) }
{
    let object = required(matches, "object")?;
    let verilog = required(matches, "verilog")?;
    if object == verilog {
        return None;
    }
    let choice = read_choice(matches)?;
    Some(Command::Compile {
        object,
        verilog,
        choice,
    })
}

fn read_run<'a>(name: &str, matches: &ArgMatches<'a>) -> Option<Command<'a>>
    requires { name.now ≡ codes "run" }
    ensures some { IfSome result (λ command. Means name.now (values_from matches.now) (request_of command)) }
    ensures none { IfNone result ((request : Request) → ¬ Means name.now (values_from matches.now) request) }
{
    let files = read_files(matches)?;
    let verilog = read_text(matches, &files)?;
    let choice = read_choice(matches)?;
    let ifindex = read_ifindex(matches)?;
    Some(Command::Run {
        files,
        verilog,
        choice,
        ifindex,
    })
}

fn read_sim<'a>(name: &str, matches: &ArgMatches<'a>) -> Option<Command<'a>>
    requires { name.now ≡ codes "sim" }
    ensures some { IfSome result (λ command. Means name.now (values_from matches.now) (request_of command)) }
    ensures none { IfNone result ((request : Request) → ¬ Means name.now (values_from matches.now) request) }
{
    let files = read_files(matches)?;
    let verilog = read_text(matches, &files)?;
    let choice = read_choice(matches)?;
    let ifindex = read_ifindex(matches)?;
    let clocks = required_number(matches, "clocks", 0, CLOCK_LIMIT)?;
    let events = possible_number(matches, "events", 0, u32::MAX)?;
    Some(Command::Sim {
        files,
        verilog,
        choice,
        ifindex,
        clocks,
        events,
    })
}

fn read_ref<'a>(name: &str, matches: &ArgMatches<'a>) -> Option<Command<'a>>
    requires { name.now ≡ codes "ref" }
    ensures some { IfSome result (λ command. Means name.now (values_from matches.now) (request_of command)) }
    ensures none { IfNone result ((request : Request) → ¬ Means name.now (values_from matches.now) request) }
{
    let files = read_files(matches)?;
    let choice = read_choice(matches)?;
    let ifindex = read_ifindex(matches)?;
    Some(Command::Ref {
        files,
        choice,
        ifindex,
    })
}

fn read_report<'a>(name: &str, matches: &ArgMatches<'a>) -> Option<Command<'a>>
    requires { name.now ≡ codes "report" }
    ensures some { IfSome result (λ command. Means name.now (values_from matches.now) (request_of command)) }
    ensures none { IfNone result ((request : Request) → ¬ Means name.now (values_from matches.now) request) }
{
    let object = required(matches, "object")?;
    let choice = read_choice(matches)?;
    Some(Command::Report { object, choice })
}

fn read_prepare<'a>(name: &str, matches: &ArgMatches<'a>) -> Option<Command<'a>>
    requires { name.now ≡ codes "prepare" }
    ensures some { IfSome result (λ command. Means name.now (values_from matches.now) (request_of command)) }
    ensures none { IfNone result ((request : Request) → ¬ Means name.now (values_from matches.now) request) }
{
    let object = required(matches, "object")?;
    let output = required(matches, "output")?;
    if object == output {
        return None;
    }
    let choice = read_choice(matches)?;
    Some(Command::Prepare {
        object,
        output,
        choice,
    })
}

fn read_demo<'a>(name: &str, matches: &ArgMatches<'a>) -> Option<Command<'a>>
    requires { name.now ≡ codes "demo" }
    ensures some { IfSome result (λ command. Means name.now (values_from matches.now) (request_of command)) }
    ensures none { IfNone result ((request : Request) → ¬ Means name.now (values_from matches.now) request) }
{
    let seed = required_number(matches, "seed", 0, u32::MAX)?;
    let packets = required_number(matches, "packets", 0, PACKET_LIMIT)?;
    Some(Command::Demo { seed, packets })
}
