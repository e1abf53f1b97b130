//! The words of the commands that take other words than just two names: `gen`, `dict`, `faults`, `synth`, `compact`,
//! `rank`, `adapt`, `expect`, `suspects`, `cover`, `grade`, `topup` and `bridges`.

ghost use Rattle.std.specs.Prelude.{◌≡◌, ◌≤◌, IfOk, IfSome, codes, option_map};
ghost use Rattle.clap.specs.Words.{app_of, found_of, rows_of, with_rule};
ghost use Rattle.result_records.specs.Limits.{AreWithinLimits};
ghost use Rattle.request_words.specs.Arguments.{option_rule, number_in};
ghost use Rattle.request_words.specs.Request.{gen_app, gen_by, dict_app, dict_by, faults_app, faults_by, synth_app, synth_by, compact_app, compact_by, rank_app, rank_by, adapt_app, adapt_by, log_app, applied_rule, expect_app, expect_by, suspects_app, suspects_by, cover_app, cover_by, list_app, grade_by, topup_app, topup_by, bridges_app, bridges_by};
ghost use Rattle.request_words.specs.Asked.{asked, HasLimits};

use crate::arguments::{
    bare_command, kind_named, name_arg, name_in, number_arg, number_in, text_in, two_names,
    with_names, with_option, with_text_option,
};
use crate::request::Request;
use clap::{ArgMatches, Command};
use result_records::{BLOCKS_LIMIT, Budgets, CONFLICTS_LIMIT, CUBES_LIMIT};
use std::alloc::{AllocError, Global};

// The largest number of a netlist of `synth`.
const SYNTH_LIMIT: u32 = 2000;

// The limit of mismatches above the least, and of failing patterns that a bridge leaves unexplained.
const WITHIN_LIMIT: u32 = 1_000_000;

// The limit of suspects or bridges that are listed.
const MOST_LIMIT: u32 = 1_000_000;

/// Returns the definition of `gen`: two names and three options.
pub(crate) fn gen_command<'a>(alloc: Global) -> Result<Command<'a>, AllocError>
    ensures { IfOk result (λ c. app_of c ≡ gen_app) }
{
    with_options(alloc, two_names(alloc, "gen", "bench", "result")?)
}

// Adds the options of `gen` to a command.
fn with_options<'a>(alloc: Global, command: Command<'a>) -> Result<Command<'a>, AllocError>
    ensures { IfOk result (λ c. app_of c ≡ with_rule (with_rule (with_rule (app_of command.entry) (option_rule (codes "blocks") (codes "4") 0 BLOCKS_LIMIT)) (option_rule (codes "cubes") (codes "64") 0 CUBES_LIMIT)) (option_rule (codes "conflicts") (codes "2000") 0 CONFLICTS_LIMIT)) }
{
    let command = with_option(alloc, command, "blocks", "4", 0, BLOCKS_LIMIT)?;
    with_search_options(alloc, command)
}

// Adds the options that bound the search for patterns to a command.
fn with_search_options<'a>(alloc: Global, command: Command<'a>) -> Result<Command<'a>, AllocError>
    ensures { IfOk result (λ c. app_of c ≡ with_rule (with_rule (app_of command.entry) (option_rule (codes "cubes") (codes "64") 0 CUBES_LIMIT)) (option_rule (codes "conflicts") (codes "2000") 0 CONFLICTS_LIMIT)) }
{
    let command = with_option(alloc, command, "cubes", "64", 0, CUBES_LIMIT)?;
    with_option(alloc, command, "conflicts", "2000", 0, CONFLICTS_LIMIT)
}

/// Returns the request of its matches.
pub(crate) fn gen_in<'a>(matches: &ArgMatches<'a>) -> Request<'a>
    ensures asked { asked result ≡ gen_by (rows_of (found_of matches.now)) }
    ensures limits { HasLimits result }
{
    let blocks = number_in(matches, "blocks", 0, BLOCKS_LIMIT);
    Request::Gen {
        bench: name_in(matches, "bench"),
        result: name_in(matches, "result"),
        budgets: budgets_in(matches, blocks),
    }
}

// Returns the budgets with `blocks` blocks and with the options that bound the search.
fn budgets_in(matches: &ArgMatches<'_>, blocks: u32) -> Budgets
    requires { blocks ≤ BLOCKS_LIMIT }
    ensures budgets { result ≡ record { blocks = blocks; cubes = number_in (codes "cubes") 0 CUBES_LIMIT (rows_of (found_of matches.now)); conflicts = number_in (codes "conflicts") 0 CONFLICTS_LIMIT (rows_of (found_of matches.now)) } }
    ensures limits { AreWithinLimits result }
{
    Budgets {
        blocks,
        cubes: number_in(matches, "cubes", 0, CUBES_LIMIT),
        conflicts: number_in(matches, "conflicts", 0, CONFLICTS_LIMIT),
    }
}

/// Returns the definition of `dict`: four names, the first of them a kind.
pub(crate) fn dict_command<'a>(alloc: Global) -> Result<Command<'a>, AllocError>
    ensures { IfOk result (λ c. app_of c ≡ dict_app) }
{
    with_names(
        alloc,
        two_names(alloc, "dict", "kind", "bench")?,
        "result",
        "dict",
    )
}

/// Returns the request of its matches, if they name a kind.
pub(crate) fn dict_in<'a>(matches: &ArgMatches<'a>) -> Option<Request<'a>>
    ensures asked { option_map asked result ≡ dict_by (rows_of (found_of matches.now)) }
    ensures limits { IfSome result HasLimits }
{
    let kind = kind_named(name_in(matches, "kind"))?;
    Some(Request::MakeDict {
        kind,
        bench: name_in(matches, "bench"),
        result: name_in(matches, "result"),
        dict: name_in(matches, "dict"),
    })
}

/// Returns the definition of `faults`: one name.
pub(crate) fn faults_command<'a>(alloc: Global) -> Result<Command<'a>, AllocError>
    ensures { IfOk result (λ c. app_of c ≡ faults_app) }
{
    bare_command(alloc, "faults").arg(name_arg(alloc, "bench"))
}

/// Returns the request of its matches.
pub(crate) fn faults_in<'a>(matches: &ArgMatches<'a>) -> Request<'a>
    ensures asked { asked result ≡ faults_by (rows_of (found_of matches.now)) }
    ensures limits { HasLimits result }
{
    Request::ListFaults {
        bench: name_in(matches, "bench"),
    }
}

/// Returns the definition of `synth`: a number and two names.
pub(crate) fn synth_command<'a>(alloc: Global) -> Result<Command<'a>, AllocError>
    ensures { IfOk result (λ c. app_of c ≡ synth_app) }
{
    let command = bare_command(alloc, "synth").arg(number_arg(alloc, "n", SYNTH_LIMIT))?;
    with_names(alloc, command, "bench", "result")
}

/// Returns the request of its matches.
pub(crate) fn synth_in<'a>(matches: &ArgMatches<'a>) -> Request<'a>
    ensures asked { asked result ≡ synth_by (rows_of (found_of matches.now)) }
    ensures limits { HasLimits result }
{
    Request::Synth {
        n: number_in(matches, "n", 1, SYNTH_LIMIT),
        bench: name_in(matches, "bench"),
        result: name_in(matches, "result"),
    }
}

/// Returns the definition of `compact`: three names.
pub(crate) fn compact_command<'a>(alloc: Global) -> Result<Command<'a>, AllocError>
    ensures { IfOk result (λ c. app_of c ≡ compact_app) }
{
    two_names(alloc, "compact", "bench", "result")?.arg(name_arg(alloc, "new"))
}

/// Returns the request of its matches.
pub(crate) fn compact_in<'a>(matches: &ArgMatches<'a>) -> Request<'a>
    ensures asked { asked result ≡ compact_by (rows_of (found_of matches.now)) }
    ensures limits { HasLimits result }
{
    Request::Compact {
        bench: name_in(matches, "bench"),
        result: name_in(matches, "result"),
        new: name_in(matches, "new"),
    }
}

/// Returns the definition of `rank`: two names and an option.
pub(crate) fn rank_command<'a>(alloc: Global) -> Result<Command<'a>, AllocError>
    ensures { IfOk result (λ c. app_of c ≡ rank_app) }
{
    let command = two_names(alloc, "rank", "dict", "log")?;
    with_option(alloc, command, "within", "0", 0, WITHIN_LIMIT)
}

/// Returns the request of its matches.
pub(crate) fn rank_in<'a>(matches: &ArgMatches<'a>) -> Request<'a>
    ensures asked { asked result ≡ rank_by (rows_of (found_of matches.now)) }
    ensures limits { HasLimits result }
{
    Request::Rank {
        dict: name_in(matches, "dict"),
        log: name_in(matches, "log"),
        within: number_in(matches, "within", 0, WITHIN_LIMIT),
    }
}

/// Returns the definition of `adapt`: three names.
pub(crate) fn adapt_command<'a>(alloc: Global) -> Result<Command<'a>, AllocError>
    ensures { IfOk result (λ c. app_of c ≡ adapt_app) }
{
    two_names(alloc, "adapt", "bench", "result")?.arg(name_arg(alloc, "plan"))
}

/// Returns the request of its matches.
pub(crate) fn adapt_in<'a>(matches: &ArgMatches<'a>) -> Request<'a>
    ensures asked { asked result ≡ adapt_by (rows_of (found_of matches.now)) }
    ensures limits { HasLimits result }
{
    Request::Adapt {
        bench: name_in(matches, "bench"),
        result: name_in(matches, "result"),
        plan: name_in(matches, "plan"),
    }
}

// Returns the definition of a command: three names, the last of them a log.
fn log_command<'a>(alloc: Global, name: &'a str) -> Result<Command<'a>, AllocError>
    ensures { IfOk result (λ c. app_of c ≡ log_app name.entry.now) }
{
    two_names(alloc, name, "bench", "result")?.arg(name_arg(alloc, "log"))
}

// Adds the option that names the list of vectors by which the log is numbered.
fn with_applied<'a>(alloc: Global, command: Command<'a>) -> Result<Command<'a>, AllocError>
    ensures { IfOk result (λ c. app_of c ≡ with_rule (app_of command.entry) applied_rule) }
{
    with_text_option(alloc, command, "applied")
}

/// Returns the definition of `expect`: three names and an option.
pub(crate) fn expect_command<'a>(alloc: Global) -> Result<Command<'a>, AllocError>
    ensures { IfOk result (λ c. app_of c ≡ expect_app) }
{
    with_applied(alloc, log_command(alloc, "expect")?)
}

/// Returns the request of its matches.
pub(crate) fn expect_in<'a>(matches: &ArgMatches<'a>) -> Request<'a>
    ensures asked { asked result ≡ expect_by (rows_of (found_of matches.now)) }
    ensures limits { HasLimits result }
{
    let bench = name_in(matches, "bench");
    let result = name_in(matches, "result");
    let log = name_in(matches, "log");
    match text_in(matches, "applied") {
        Some(vectors) => Request::ExpectAt {
            bench,
            result,
            log,
            vectors,
        },
        None => Request::Expect { bench, result, log },
    }
}

/// Returns the definition of `suspects`: three names and two options.
pub(crate) fn suspects_command<'a>(alloc: Global) -> Result<Command<'a>, AllocError>
    ensures { IfOk result (λ c. app_of c ≡ suspects_app) }
{
    let command = log_command(alloc, "suspects")?;
    let command = with_option(alloc, command, "most", "20", 1, MOST_LIMIT)?;
    with_applied(alloc, command)
}

/// Returns the request of its matches.
pub(crate) fn suspects_in<'a>(matches: &ArgMatches<'a>) -> Request<'a>
    ensures asked { asked result ≡ suspects_by (rows_of (found_of matches.now)) }
    ensures limits { HasLimits result }
{
    let bench = name_in(matches, "bench");
    let result = name_in(matches, "result");
    let log = name_in(matches, "log");
    let most = number_in(matches, "most", 1, MOST_LIMIT);
    match text_in(matches, "applied") {
        Some(vectors) => Request::SuspectsAt {
            bench,
            result,
            log,
            most,
            vectors,
        },
        None => Request::Suspects {
            bench,
            result,
            log,
            most,
        },
    }
}

/// Returns the definition of `cover`: three names and an option.
pub(crate) fn cover_command<'a>(alloc: Global) -> Result<Command<'a>, AllocError>
    ensures { IfOk result (λ c. app_of c ≡ cover_app) }
{
    with_applied(alloc, log_command(alloc, "cover")?)
}

/// Returns the request of its matches.
pub(crate) fn cover_in<'a>(matches: &ArgMatches<'a>) -> Request<'a>
    ensures asked { asked result ≡ cover_by (rows_of (found_of matches.now)) }
    ensures limits { HasLimits result }
{
    let bench = name_in(matches, "bench");
    let result = name_in(matches, "result");
    let log = name_in(matches, "log");
    match text_in(matches, "applied") {
        Some(vectors) => Request::CoverAt {
            bench,
            result,
            log,
            vectors,
        },
        None => Request::Cover { bench, result, log },
    }
}

/// Returns the definition of a command: three names, the second of them a list of vectors.
pub(crate) fn list_command<'a>(alloc: Global, name: &'a str) -> Result<Command<'a>, AllocError>
    ensures { IfOk result (λ c. app_of c ≡ list_app name.entry.now) }
{
    two_names(alloc, name, "bench", "vectors")?.arg(name_arg(alloc, "result"))
}

/// Returns the request of the matches of `grade`.
pub(crate) fn grade_in<'a>(matches: &ArgMatches<'a>) -> Request<'a>
    ensures asked { asked result ≡ grade_by (rows_of (found_of matches.now)) }
    ensures limits { HasLimits result }
{
    let budgets = Budgets {
        blocks: 0,
        cubes: 0,
        conflicts: 0,
    };
    Request::TopUp {
        bench: name_in(matches, "bench"),
        vectors: name_in(matches, "vectors"),
        result: name_in(matches, "result"),
        budgets,
    }
}

/// Returns the definition of `topup`: three names and two options.
pub(crate) fn topup_command<'a>(alloc: Global) -> Result<Command<'a>, AllocError>
    ensures { IfOk result (λ c. app_of c ≡ topup_app) }
{
    with_search_options(alloc, list_command(alloc, "topup")?)
}

/// Returns the request of its matches.
pub(crate) fn topup_in<'a>(matches: &ArgMatches<'a>) -> Request<'a>
    ensures asked { asked result ≡ topup_by (rows_of (found_of matches.now)) }
    ensures limits { HasLimits result }
{
    Request::TopUp {
        bench: name_in(matches, "bench"),
        vectors: name_in(matches, "vectors"),
        result: name_in(matches, "result"),
        budgets: budgets_in(matches, 0),
    }
}

/// Returns the definition of `bridges`: three names and three options.
pub(crate) fn bridges_command<'a>(alloc: Global) -> Result<Command<'a>, AllocError>
    ensures { IfOk result (λ c. app_of c ≡ bridges_app) }
{
    let command = log_command(alloc, "bridges")?;
    let command = with_option(alloc, command, "most", "20", 1, MOST_LIMIT)?;
    let command = with_option(alloc, command, "within", "0", 0, WITHIN_LIMIT)?;
    with_applied(alloc, command)
}

/// Returns the request of its matches.
pub(crate) fn bridges_in<'a>(matches: &ArgMatches<'a>) -> Request<'a>
    ensures asked { asked result ≡ bridges_by (rows_of (found_of matches.now)) }
    ensures limits { HasLimits result }
{
    let bench = name_in(matches, "bench");
    let result = name_in(matches, "result");
    let log = name_in(matches, "log");
    let most = number_in(matches, "most", 1, MOST_LIMIT);
    let within = number_in(matches, "within", 0, WITHIN_LIMIT);
    match text_in(matches, "applied") {
        Some(vectors) => Request::BridgesAt {
            bench,
            result,
            log,
            most,
            within,
            vectors,
        },
        None => Request::Bridges {
            bench,
            result,
            log,
            most,
            within,
        },
    }
}
