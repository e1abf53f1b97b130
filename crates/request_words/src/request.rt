//! `Request` and `read_words`: which command reads the words, and what they ask for. The commands with just two names
//! are here: `check`, `convert`, `diagnose`, `sim` and `follow`.

ghost use Rattle.std.specs.Prelude.{◌≡◌, IfOk, IfSome, Err, Some, None, map, option_map, string_bytes};
ghost use Rattle.clap.specs.Words.{app_of, found_of, rows_of};
ghost use Rattle.request_words.specs.Request.{verb_named, app_for, request_by, asked_by, request_of};
ghost use Rattle.request_words.specs.Asked.{asked, HasLimits};

use crate::arguments::{WordsFault, name_in, parse, two_names};
use crate::commands::{
    adapt_command, adapt_in, bridges_command, bridges_in, compact_command, compact_in,
    cover_command, cover_in, dict_command, dict_in, expect_command, expect_in, faults_command,
    faults_in, gen_command, gen_in, grade_in, list_command, rank_command, rank_in,
    suspects_command, suspects_in, synth_command, synth_in, topup_command, topup_in,
};
use clap::{ArgMatches, Command};
use result_records::Budgets;
use std::alloc::{AllocError, Global};

/// The commands.
#[derive(Clone, Copy)]
pub(crate) enum Verb {
    Gen,
    Check,
    Dict,
    Convert,
    Diagnose,
    Faults,
    Sim,
    Synth,
    Compact,
    Rank,
    Adapt,
    Follow,
    Expect,
    Suspects,
    Cover,
    Grade,
    TopUp,
    Bridges,
}

/// What the entry of a number in a dictionary says: at which patterns it answers otherwise than the fault-free circuit
/// (`PassFail`), all that it answers (`Full`), or at which patterns it answers otherwise than chosen baselines
/// (`SameDiff`).
#[derive(Clone, Copy, Debug)]
pub enum EntryKind {
    PassFail,
    Full,
    SameDiff,
}

/// What the words ask for, with each file given by its name.
#[derive(Clone, Copy, Debug)]
pub enum Request<'a> {
    /// To generate a result for a netlist.
    Gen {
        bench: &'a str,
        result: &'a str,
        budgets: Budgets,
    },
    /// To check a result for a netlist.
    Check {
        bench: &'a str,
        result: &'a str,
    },
    /// To make a dictionary for a netlist and a result.
    MakeDict {
        kind: EntryKind,
        bench: &'a str,
        result: &'a str,
        dict: &'a str,
    },
    /// To write a dictionary again under a new name.
    Convert {
        old: &'a str,
        new: &'a str,
    },
    /// To list the numbers that a dictionary and a log point to.
    Diagnose {
        dict: &'a str,
        log: &'a str,
    },
    /// To list the faults of a netlist.
    ListFaults {
        bench: &'a str,
    },
    /// To simulate a netlist at a list of vectors.
    Simulate {
        bench: &'a str,
        vectors: &'a str,
    },
    /// To write the netlist of a number and generate a result for it.
    Synth {
        n: u32,
        bench: &'a str,
        result: &'a str,
    },
    /// To leave out the patterns of a result that its classes don't need, for a netlist.
    Compact {
        bench: &'a str,
        result: &'a str,
        new: &'a str,
    },
    /// To rank the numbers by a dictionary and a partial log, up to `within` mismatches above the least.
    Rank {
        dict: &'a str,
        log: &'a str,
        within: u32,
    },
    /// To plan which pattern to ask next, for a netlist and a result.
    Adapt {
        bench: &'a str,
        result: &'a str,
        plan: &'a str,
    },
    /// To say where a log of answers leads in a plan.
    Follow {
        plan: &'a str,
        log: &'a str,
    },
    /// To write the log that a chip without a fault gives, for a netlist and a result.
    Expect {
        bench: &'a str,
        result: &'a str,
        log: &'a str,
    },
    /// To list the classes that a partial log suspects, at most `most` of them, for a netlist and a result.
    Suspects {
        bench: &'a str,
        result: &'a str,
        log: &'a str,
        most: u32,
    },
    /// To list classes that together explain what fails in a partial log, for a netlist and a result.
    Cover {
        bench: &'a str,
        result: &'a str,
        log: &'a str,
    },
    /// To keep each vector of a list that splits a class, and generate a result after them, for a netlist.
    TopUp {
        bench: &'a str,
        vectors: &'a str,
        result: &'a str,
        budgets: Budgets,
    },
    /// To list bridges, at most `most` of them, that explain all failing patterns of a partial log except at most
    /// `within`, for a netlist and a result.
    Bridges {
        bench: &'a str,
        result: &'a str,
        log: &'a str,
        most: u32,
        within: u32,
    },
    /// As `Expect`, for a list of vectors that were applied.
    ExpectAt {
        bench: &'a str,
        result: &'a str,
        log: &'a str,
        vectors: &'a str,
    },
    /// As `Suspects`, with a log that is numbered by a list of vectors that were applied.
    SuspectsAt {
        bench: &'a str,
        result: &'a str,
        log: &'a str,
        most: u32,
        vectors: &'a str,
    },
    /// As `Cover`, with a log that is numbered by a list of vectors that were applied.
    CoverAt {
        bench: &'a str,
        result: &'a str,
        log: &'a str,
        vectors: &'a str,
    },
    /// As `Bridges`, with a log that is numbered by a list of vectors that were applied.
    BridgesAt {
        bench: &'a str,
        result: &'a str,
        log: &'a str,
        most: u32,
        within: u32,
        vectors: &'a str,
    },
}

/// Returns the request of the words: the first is a command, which reads the others. Memory aside, returns
/// `NotUnderstood` exactly if there is no word, the first is no command, that command's definition doesn't take the
/// others, or the kind of a dictionary is none of the three.
#[tactic(auto, unfolding(crate::specs::Request::request_of))]
pub fn read_words(alloc: Global, words: &[String]) -> Result<Request<'_>, WordsFault>
    ensures asked { IfOk result (λ request. request_of (map string_bytes words.now) ≡ Some (asked request)) }
    ensures limits { IfOk result HasLimits }
    ensures refused { result ≡ Err WordsFault.NotUnderstood → request_of (map string_bytes words.now) ≡ None }
{
    let Some((command, words)) = words.split_first() else {
        return Err(WordsFault::NotUnderstood);
    };
    match verb_named(command.as_str()) {
        Some(verb) => read_request(alloc, verb, words),
        None => Err(WordsFault::NotUnderstood),
    }
}

// Returns the command of a name, if there is one.
#[tactic(auto, unfolding(crate::specs::Request::verb_named))]
fn verb_named(name: &str) -> Option<Verb>
    ensures { result ≡ verb_named name.now }
{
    match name {
        "gen" => Some(Verb::Gen),
        "check" => Some(Verb::Check),
        "dict" => Some(Verb::Dict),
        "convert" => Some(Verb::Convert),
        "diagnose" => Some(Verb::Diagnose),
        "faults" => Some(Verb::Faults),
        "sim" => Some(Verb::Sim),
        "synth" => Some(Verb::Synth),
        "compact" => Some(Verb::Compact),
        "rank" => Some(Verb::Rank),
        "adapt" => Some(Verb::Adapt),
        "follow" => Some(Verb::Follow),
        "expect" => Some(Verb::Expect),
        "suspects" => Some(Verb::Suspects),
        "cover" => Some(Verb::Cover),
        "grade" => Some(Verb::Grade),
        "topup" => Some(Verb::TopUp),
        "bridges" => Some(Verb::Bridges),
        _ => None,
    }
}

// Returns the request of the words after a command's name.
fn read_request(alloc: Global, verb: Verb, words: &[String]) -> Result<Request<'_>, WordsFault>
    ensures asked { IfOk result (λ request. asked_by (Some verb) (map string_bytes words.now) ≡ Some (asked request)) }
    ensures limits { IfOk result HasLimits }
    ensures refused { result ≡ Err WordsFault.NotUnderstood → asked_by (Some verb) (map string_bytes words.now) ≡ None }
{
    let matches = parse(definition(alloc, verb)?, words)?;
    match requested(verb, &matches) {
        Some(request) => Ok(request),
        None => Err(WordsFault::NotUnderstood),
    }
}

// Returns the definition by which `clap` reads the words after a command's name.
#[tactic(auto, unfolding(crate::specs::Request::check_app, crate::specs::Request::convert_app, crate::specs::Request::diagnose_app, crate::specs::Request::sim_app, crate::specs::Request::follow_app, crate::specs::Request::grade_app))]
fn definition<'a>(alloc: Global, verb: Verb) -> Result<Command<'a>, AllocError>
    ensures { IfOk result (λ c. app_of c ≡ app_for verb) }
{
    match verb {
        Verb::Gen => gen_command(alloc),
        Verb::Check => two_names(alloc, "check", "bench", "result"),
        Verb::Dict => dict_command(alloc),
        Verb::Convert => two_names(alloc, "convert", "old", "new"),
        Verb::Diagnose => two_names(alloc, "diagnose", "dict", "log"),
        Verb::Faults => faults_command(alloc),
        Verb::Sim => two_names(alloc, "sim", "bench", "vectors"),
        Verb::Synth => synth_command(alloc),
        Verb::Compact => compact_command(alloc),
        Verb::Rank => rank_command(alloc),
        Verb::Adapt => adapt_command(alloc),
        Verb::Follow => two_names(alloc, "follow", "plan", "log"),
        Verb::Expect => expect_command(alloc),
        Verb::Suspects => suspects_command(alloc),
        Verb::Cover => cover_command(alloc),
        Verb::Grade => list_command(alloc, "grade"),
        Verb::TopUp => topup_command(alloc),
        Verb::Bridges => bridges_command(alloc),
    }
}

// Returns what its matches ask for.
fn requested<'a>(verb: Verb, matches: &ArgMatches<'a>) -> Option<Request<'a>>
    ensures asked { option_map asked result ≡ request_by verb (rows_of (found_of matches.now)) }
    ensures limits { IfSome result HasLimits }
{
    match verb {
        Verb::Gen => Some(gen_in(matches)),
        Verb::Check => Some(Request::Check {
            bench: name_in(matches, "bench"),
            result: name_in(matches, "result"),
        }),
        Verb::Dict => dict_in(matches),
        Verb::Convert => Some(Request::Convert {
            old: name_in(matches, "old"),
            new: name_in(matches, "new"),
        }),
        Verb::Diagnose => Some(Request::Diagnose {
            dict: name_in(matches, "dict"),
            log: name_in(matches, "log"),
        }),
        Verb::Faults => Some(faults_in(matches)),
        Verb::Sim => Some(Request::Simulate {
            bench: name_in(matches, "bench"),
            vectors: name_in(matches, "vectors"),
        }),
        Verb::Synth => Some(synth_in(matches)),
        Verb::Compact => Some(compact_in(matches)),
        Verb::Rank => Some(rank_in(matches)),
        Verb::Adapt => Some(adapt_in(matches)),
        Verb::Follow => Some(Request::Follow {
            plan: name_in(matches, "plan"),
            log: name_in(matches, "log"),
        }),
        Verb::Expect => Some(expect_in(matches)),
        Verb::Suspects => Some(suspects_in(matches)),
        Verb::Cover => Some(cover_in(matches)),
        Verb::Grade => Some(grade_in(matches)),
        Verb::TopUp => Some(topup_in(matches)),
        Verb::Bridges => Some(bridges_in(matches)),
    }
}
