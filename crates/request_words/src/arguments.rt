//! The definition of a command for `clap`, with its names, numbers and options, and what its matches hold.

ghost use Rattle.std.specs.Prelude.{◌≡◌, ◌≢◌, ◌≤◌, ◌<◌, [], IfOk, OnOk, Err, map, option_map, pos, string_bytes, true, false};
ghost use Rattle.clap.specs.Words.{rule_of, app_of, found_of, rows_of, matches_of, fault_of, kind_of, is_simple_and_free, with_rule};
ghost use Rattle.clap.specs.declared.error.ErrorKind.TheVariants.{OutOfMemory};
ghost use Rattle.clap.specs.declared.builder.value_parser.ValueParser.TheVariants as value_parsers;
ghost use Rattle.request_words.specs.Arguments.{bare_app, two_names_app, name_rule, number_rule, option_rule, text_rule, name_in, number_in, text_in, kind_named};

use crate::request::EntryKind;
use clap::builder::ValueParser;
use clap::error::ErrorKind;
use clap::{Arg, ArgAction, ArgMatches, Command, Error, value_parser};
use std::alloc::{AllocError, Global};

/// Why words give no request: they aren't understood, or memory is missing.
#[derive(Debug, Drop)]
pub enum WordsFault {
    NotUnderstood,
    NoMemory,
}

impl From<AllocError> for WordsFault {
    ghost use Rattle.request_words.specs.declared.arguments.WordsFault.TheVariants.{NoMemory};

    ghost from_gives = { λ _ fault. fault ≡ NoMemory };

    fn from(_: AllocError) -> Self {
        WordsFault::NoMemory
    }
}

// ---- definitions of commands

/// Returns a command without arguments, whose words begin after its name.
pub(crate) fn bare_command<'a>(alloc: Global, name: &'a str) -> Command<'a>
    ensures app { app_of result ≡ bare_app name.entry.now }
{
    Command::new(alloc, name)
        .no_binary_name(true)
        .disable_help_flag(true)
        .disable_version_flag(true)
}

/// Returns a command with two required names.
pub(crate) fn two_names<'a>(
    alloc: Global,
    name: &'a str,
    first: &'a str,
    second: &'a str,
) -> Result<Command<'a>, AllocError>
    ensures { IfOk result (λ c. app_of c ≡ two_names_app name.entry.now first.entry.now second.entry.now) }
{
    with_names(alloc, bare_command(alloc, name), first, second)
}

/// Adds two required names to a command.
pub(crate) fn with_names<'a>(
    alloc: Global,
    command: Command<'a>,
    first: &'a str,
    second: &'a str,
) -> Result<Command<'a>, AllocError>
    ensures { IfOk result (λ c. app_of c ≡ with_rule (with_rule (app_of command.entry) (name_rule first.entry.now)) (name_rule second.entry.now)) }
{
    command
        .arg(name_arg(alloc, first))?
        .arg(name_arg(alloc, second))
}

/// Returns a required name.
pub(crate) fn name_arg<'a>(alloc: Global, id: &'a str) -> Arg<'a>
    ensures rule { rule_of result ≡ name_rule id.entry.now }
    ensures local { result.global ≡ false }
{
    Arg::new(alloc, id).required(true).action(ArgAction::Set)
}

/// Returns a required number from 1 to `most`.
pub(crate) fn number_arg<'a>(alloc: Global, id: &'a str, most: u32) -> Arg<'a>
    ensures rule { rule_of result ≡ number_rule id.entry.now most }
    ensures local { result.global ≡ false }
{
    name_arg(alloc, id).value_parser(number_parser(1, most))
}

// Returns an option with a number from `least` to `most` and a default.
fn option_arg<'a>(alloc: Global, id: &'a str, default: &'a str, least: u32, most: u32) -> Arg<'a>
    ensures rule { rule_of result ≡ option_rule id.entry.now default.entry.now least most }
    ensures local { result.global ≡ false }
{
    Arg::new(alloc, id)
        .long(id)
        .default_value(default)
        .value_parser(number_parser(least, most))
}

/// Adds an option with a number from `least` to `most` and a default to a command.
pub(crate) fn with_option<'a>(
    alloc: Global,
    command: Command<'a>,
    id: &'a str,
    default: &'a str,
    least: u32,
    most: u32,
) -> Result<Command<'a>, AllocError>
    ensures { IfOk result (λ c. app_of c ≡ with_rule (app_of command.entry) (option_rule id.entry.now default.entry.now least most)) }
{
    command.arg(option_arg(alloc, id, default, least, most))
}

// Returns an option with a text and no default.
fn text_arg<'a>(alloc: Global, id: &'a str) -> Arg<'a>
    ensures rule { rule_of result ≡ text_rule id.entry.now }
    ensures local { result.global ≡ false }
{
    Arg::new(alloc, id).long(id).action(ArgAction::Set)
}

/// Adds an option with a text and no default to a command.
pub(crate) fn with_text_option<'a>(
    alloc: Global,
    command: Command<'a>,
    id: &'a str,
) -> Result<Command<'a>, AllocError>
    ensures { IfOk result (λ c. app_of c ≡ with_rule (app_of command.entry) (text_rule id.entry.now)) }
{
    command.arg(text_arg(alloc, id))
}

// Returns the parser of the numbers from `least` to `most`.
fn number_parser<'a>(least: u32, most: u32) -> ValueParser<'a>
    ensures { result ≡ value_parsers.Signed (pos least) (pos most) }
{
    value_parser!(u32).range(i64::from(least)..=i64::from(most))
}

// ---- matches

/// Returns the matches of the words if the command's definition takes them, and `NotUnderstood` only if it doesn't.
pub(crate) fn parse<'a>(
    command: Command<'a>,
    words: &'a [String],
) -> Result<ArgMatches<'a>, WordsFault>
    requires { is_simple_and_free (app_of command) ≡ true }
    ensures ok { IfOk result (λ m. rows_of (found_of m) ≡ matches_of (app_of command.entry) (map string_bytes words.entry.now)) }
    ensures taken { OnOk result (fault_of (app_of command.entry) (map string_bytes words.entry.now) ≡ []) }
    ensures refused { result ≡ Err WordsFault.NotUnderstood → fault_of (app_of command.entry) (map string_bytes words.entry.now) ≢ [] }
{
    match command.try_get_matches_from(words) {
        Ok(matches) => Ok(matches),
        Err(error) => Err(words_fault(&error)),
    }
}

// Returns why the words give no request, by the error of `clap`.
fn words_fault(error: &Error) -> WordsFault
    ensures { result ≡ WordsFault.NotUnderstood → kind_of error.now ≢ OutOfMemory }
{
    if error.kind() == ErrorKind::OutOfMemory {
        WordsFault::NoMemory
    } else {
        WordsFault::NotUnderstood
    }
}

/// Returns the name under an id, or an empty text if there is none.
pub(crate) fn name_in<'a>(matches: &ArgMatches<'a>, id: &str) -> &'a str
    ensures { result.now ≡ name_in id.now (rows_of (found_of matches.now)) }
{
    match matches.get_str(id) {
        Some(name) => name,
        None => "",
    }
}

/// Returns the text under an id, if there is one.
pub(crate) fn text_in<'a>(matches: &ArgMatches<'a>, id: &str) -> Option<&'a str>
    ensures { option_map (λ text. text.now) result ≡ text_in id.now (rows_of (found_of matches.now)) }
{
    matches.get_str(id)
}

/// Returns the number under an id, or `least` if there is none from `least` to `most`.
pub(crate) fn number_in(matches: &ArgMatches<'_>, id: &str, least: u32, most: u32) -> u32
    requires { least ≤ most }
    ensures number { result ≡ number_in id.now least most (rows_of (found_of matches.now)) }
    ensures least { least ≤ result }
    ensures most { result ≤ most }
{
    match matches.get_one::<u32>(id) {
        Some(number) if least <= number && number <= most => number,
        _ => least,
    }
}

/// Returns the kind of dictionary that a word names, if it names one.
pub(crate) fn kind_named(word: &str) -> Option<EntryKind>
    ensures { result ≡ kind_named word.now }
{
    match word {
        "passfail" => Some(EntryKind::PassFail),
        "full" => Some(EntryKind::Full),
        "samediff" => Some(EntryKind::SameDiff),
        _ => None,
    }
}
