// The values of options.

ghost use Rattle.std.specs.Prelude.{◌≡◌, ◌≢◌, ◌↔◌, ◌≤◌, ◌∷◌, ℕ, List, Option, Some, map, codes, IfSome, IfNone, IsTrue};
ghost use Rattle.std.specs.Option.{option_copied};
ghost use Rattle.xdp_object.specs.Choice.{Chosen, chosen_of};
ghost use Rattle.command_line.specs.Request.{Names, names_of, files_of};
ghost use Rattle.command_line.specs.Means.{AreDistinct, GivesFiles, GivesText, GivesNumber, GivesChosen, MayGiveNumber, GivesNumberIfThere};
ghost use Rattle.command_line.specs.Rows.{values_from};

use crate::command::Files;
use crate::number::number;
use clap::ArgMatches;
use xdp_object::Choice;

const HASH_CAP_LIMIT: u32 = 1024;

const USUAL_HASH_CAP: u32 = 256;

const USUAL_IFINDEX: u32 = 1;

// The value of an option.
pub(crate) fn optional<'a>(matches: &ArgMatches<'a>, option: &str) -> Option<&'a str>
    ensures { values_from matches.now option.now ≡ option_copied result }
{
    matches.get_str(option)
}

// The same, of one that the command requires.
pub(crate) fn required<'a>(matches: &ArgMatches<'a>, option: &str) -> Option<&'a str>
    ensures some { IfSome result (λ value. values_from matches.now option.now ≡ Some value.now) }
    ensures none { IfNone result ((value : List ℕ) → values_from matches.now option.now ≢ Some value) }
{
    optional(matches, option)
}

// The number of an option.
pub(crate) fn required_number(
    matches: &ArgMatches<'_>,
    option: &str,
    low: u32,
    high: u32,
) -> Option<u32>
    ensures some { IfSome result (λ n. GivesNumber (values_from matches.now) option.now low high n) }
    ensures none { IfNone result ((n : ℕ) → ¬ GivesNumber (values_from matches.now) option.now low high n) }
{
    let text = required(matches, option)?;
    number(text, low, high)
}

// The same, and where the option is not there the usual number.
fn optional_number(
    matches: &ArgMatches<'_>,
    option: &str,
    low: u32,
    high: u32,
    usual: u32,
) -> Option<u32>
    ensures some { IfSome result (λ n. MayGiveNumber (values_from matches.now) option.now low high usual n) }
    ensures none { IfNone result ((n : ℕ) → ¬ MayGiveNumber (values_from matches.now) option.now low high usual n) }
{
    match optional(matches, option) {
        Some(text) => number(text, low, high),
        None => Some(usual),
    }
}

// The same, and where the option is not there no number.
pub(crate) fn possible_number(
    matches: &ArgMatches<'_>,
    option: &str,
    low: u32,
    high: u32,
) -> Option<Option<u32>>
    ensures some { IfSome result (λ n. GivesNumberIfThere (values_from matches.now) option.now low high n) }
    ensures none { IfNone result ((n : Option ℕ) → ¬ GivesNumberIfThere (values_from matches.now) option.now low high n) }
{
    match optional(matches, option) {
        Some(text) => Some(Some(number(text, low, high)?)),
        None => Some(None),
    }
}

// The files of a run, the Verilog text apart.
pub(crate) fn read_files<'a>(matches: &ArgMatches<'a>) -> Option<Files<'a>>
    ensures some { IfSome result (λ files. GivesFiles (values_from matches.now) (names_of files)) }
    ensures none { IfNone result ((names : Names) → ¬ GivesFiles (values_from matches.now) names) }
{
    let object = required(matches, "object")?;
    let capture = required(matches, "capture")?;
    let answer = required(matches, "answer")?;
    let verdicts = required(matches, "verdicts")?;
    let final_maps = required(matches, "final")?;
    let files = Files {
        object,
        capture,
        answer,
        verdicts,
        final_maps,
        maps: optional(matches, "maps"),
    };
    if !are_files_apart(&files) {
        return None;
    }
    Some(files)
}

// The name of a run's Verilog text.
pub(crate) fn read_text<'a>(matches: &ArgMatches<'a>, files: &Files<'a>) -> Option<&'a str>
    ensures some { IfSome result (λ verilog. GivesText (values_from matches.now) (names_of files.now) verilog.now) }
    ensures none { IfNone result ((verilog : List ℕ) → ¬ GivesText (values_from matches.now) (names_of files.now) verilog) }
{
    let verilog = required(matches, "verilog")?;
    if !is_text_apart(verilog, files) {
        return None;
    }
    Some(verilog)
}

pub(crate) fn read_choice<'a>(matches: &ArgMatches<'a>) -> Option<Choice<'a>>
    ensures some { IfSome result (λ choice. GivesChosen (values_from matches.now) (chosen_of choice)) }
    ensures none { IfNone result ((selected : Chosen) → ¬ GivesChosen (values_from matches.now) selected) }
{
    let program = optional(matches, "program");
    let hash_cap = optional_number(matches, "hash-cap", 1, HASH_CAP_LIMIT, USUAL_HASH_CAP)?;
    Some(Choice { program, hash_cap })
}

pub(crate) fn read_ifindex(matches: &ArgMatches<'_>) -> Option<u32>
    ensures some { IfSome result (λ n. MayGiveNumber (values_from matches.now) (codes "ifindex") 0 4294967295 1 n) }
    ensures none { IfNone result ((n : ℕ) → ¬ MayGiveNumber (values_from matches.now) (codes "ifindex") 0 4294967295 1 n) }
{
    optional_number(matches, "ifindex", 0, u32::MAX, USUAL_IFINDEX)
}

// Whether no two of these files have one name.
fn are_files_apart(files: &Files) -> bool
    ensures { IsTrue result ↔ AreDistinct (files_of (names_of files.now)) }
{
    let Files {
        object,
        capture,
        answer,
        verdicts,
        final_maps,
        maps,
    } = *files;
    match maps {
        Some(maps) => are_distinct(&[object, capture, answer, verdicts, final_maps, maps]),
        None => are_distinct(&[object, capture, answer, verdicts, final_maps]),
    }
}

// The same of these files and a Verilog text.
fn is_text_apart(verilog: &str, files: &Files) -> bool
    ensures { IsTrue result ↔ AreDistinct (verilog.now ∷ files_of (names_of files.now)) }
{
    let Files {
        object,
        capture,
        answer,
        verdicts,
        final_maps,
        maps,
    } = *files;
    match maps {
        Some(maps) => are_distinct(&[verilog, object, capture, answer, verdicts, final_maps, maps]),
        None => are_distinct(&[verilog, object, capture, answer, verdicts, final_maps]),
    }
}

// Whether no two names are equal.
fn are_distinct(names: &[&str]) -> bool
    ensures { IsTrue result ↔ AreDistinct (map (λ name. name.now) names.now) }
{
    for later in 0..names.len() {
        for earlier in 0..later {
            if names[earlier] == names[later] {
                return false;
            }
        }
    }
    true
}
