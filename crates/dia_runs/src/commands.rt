//! The top call, which calls the command that the words ask for. `specs/Requests.antt` has the plan, the endings and
//! the outputs of each request, `specs/Run.antt` all that is promised of a run, field by field.

ghost use Rattle.std.specs.Prelude.{◌≡◌, map, string_bytes, Some};
ghost use Rattle.request_words.specs.Asked.{asked, HasLimits};
ghost use Rattle.request_words.specs.Request.{request_of};
ghost use Rattle.dia_gen.specs.Laws.{OneFileOfList};
ghost use Rattle.listing_commands.specs.Laws.{ResultsSaySame};
ghost use Rattle.run_steps.specs.Ending.{Ending, OneEndingEach, status_of};
ghost use Rattle.dia_runs.specs.Groups.{IsOfResults, IsOfDictionaries, IsOfListings};
ghost use Rattle.dia_runs.specs.Requests.{Ran};
ghost use Rattle.dia_runs.specs.DictionaryRuns.{DiagnosesAlike};
ghost use Rattle.dia_runs.specs.Limits.{HaveLimits};
ghost use Rattle.dia_runs.specs.Promises.{EachNumberIsAccepted, NoNumberIsRefused, FilesAreJudgedOnce};
ghost use Rattle.dia_runs.specs.Run.{IsRunOf};

use adaptive_tree::{plan_is_read_once, walk_is_read_once, written_plan_is_read};
use bench_reader::{never_accepted_and_refused, one_netlist, one_refusal};
use bridging_faults::{expected_log_lists_nothing, explains_as_one_number};
use compact_tests::thin_is_sound;
use dia_gen::{file_of_list_is_one, list_is_graded};
use diag_shelf::Shelf;
use diagnose::{list_is_read_once, log_is_read_once};
use dict_file::dictionary_is_read_once;
use dictionary_commands::{
    convert_file, diagnose_log, follow_log, make_dictionary, make_plan, rank_log,
};
use fault_collapse::same_root_equal;
use listing_commands::{
    expect_log, expect_log_at, list_bridges, list_bridges_at, list_cover, list_cover_at,
    list_faults, list_suspects, list_suspects_at, own_patterns_say_same, simulate,
};
use net_model::{none_reaches_itself, one_walk, walk_reaches_itself};
use pair_sets::{covering_is_equal, full_tree_is_covered, leaves_are_closed};
use ranked_diag::{partial_log_is_read_once, whole_log_ranks_as_listed};
use request_words::{Request, WordsFault, read_words};
use result_commands::{check_result, compact_result, generate_file, synthesize, top_up_file};
use result_file::{file_is_refused_once, record_is_spelled_once, valid_is_true};
use run_steps::{RunFault, one_ending_each, refuse_words, status_of};
use std::alloc::Global;
use synth_netlist::{each_number_is_accepted, no_number_is_refused};

/// Does what `words` ask for over `shelf`, and returns the status of how that ended: `status_of` has the status of each
/// ending.
///
/// Returns 2 exactly if the words ask for nothing, unless it returns 8 or 9; then no file was created or changed, and
/// the console gained a text that says so. Returns 3, 4, 5, 6 or 10 exactly if a netlist, a result, a dictionary, a log
/// or list of vectors, or an adaptive plan that it reads is the first file to be refused, unless it returns 7, 8 or 9;
/// then no file was created or changed, and the console gained the text of the refusal. Returns 7 only if the count of
/// read faults rose; then no file was created or changed, and nothing was printed. Returns 8 only if the count of write
/// faults rose, and 9 if memory is missing; then nothing was done, or a part of what words and files call for: whole
/// files, the last perhaps cut, or of a result a beginning of right lines, and a beginning of the text, none before all
/// files are there. If the words or a file are refused, no file was created or changed; if a read failed, nothing was
/// done; and files that aren't outputs of the words are as before.
///
/// If the words ask for something, each file that is read is accepted and no count rose, it returns 0 or 9. If the
/// count of read faults is greater than before it returns 7 or 9; if that of write faults is, 8 or 9. Unless it returns
/// 7, 8 or 9, the file that was read last is read to its end, or to one byte past the limit of its kind. On a sure
/// shelf that holds each file that is read, up to the first that is refused, no count rises. What is said of files and
/// of the console, and which file is refused, holds on a shelf that tells them.
pub fn run<S: Shelf>(alloc: Global, words: &[String], shelf: &mut S) -> u8
    // All of this run: first what `gen` and `check` leave, then what the other commands leave, the ending and its
    // causes, and refusals.
    ensures run { let request = request_of (map string_bytes words.now) in
        (ending : Ending) × (result ≡ status_of ending) × IsRunOf request ending (S.state shelf.old) (S.state shelf.new) }

    // The status tells the ending.
    ensures one_each { OneEndingEach }

    // For every request, no file that is read is both refused and accepted, accepted as two things, or refused with two
    // texts.
    ensures once { FilesAreJudgedOnce }

    // The limits of the readers are the numbers of `limit_of`: a file with more bytes is refused as too long.
    ensures limits { HaveLimits }

    // The netlist of each number up to 2,000 is accepted as a design of the number's statements, and so it is never
    // refused.
    ensures accepted { EachNumberIsAccepted }
    ensures numbers { NoNumberIsRefused }

    // A dictionary and its version 2, within the limit of bytes, are diagnosed alike.
    ensures alike { DiagnosesAlike }

    // Without budgets of cubes and conflicts one list of vectors makes one result.
    ensures one_result { OneFileOfList }

    // With a result's own patterns as the list that was applied, the same is printed and made as without a list.
    ensures own_patterns { ResultsSaySame }
{
    same_root_equal();
    covering_is_equal();
    leaves_are_closed();
    full_tree_is_covered();
    valid_is_true();
    list_is_graded();
    file_of_list_is_one();
    thin_is_sound();
    partial_log_is_read_once();
    whole_log_ranks_as_listed();
    record_is_spelled_once();
    expected_log_lists_nothing();
    explains_as_one_number();
    own_patterns_say_same();
    written_plan_is_read();
    dictionary_is_read_once();
    files_are_judged_once();
    each_number_is_accepted();
    no_number_is_refused();
    one_ending_each();
    status_of(dispatch(alloc, words, shelf))
}

// No file is both refused and accepted, accepted as two things, or refused with two texts.
fn files_are_judged_once()
    ensures { FilesAreJudgedOnce }
{
    never_accepted_and_refused();
    one_refusal();
    one_netlist();
    one_walk();
    none_reaches_itself();
    walk_reaches_itself();
    file_is_refused_once();
    record_is_spelled_once();
    dictionary_is_read_once();
    log_is_read_once();
    partial_log_is_read_once();
    plan_is_read_once();
    walk_is_read_once();
    list_is_read_once();
}

// Reads the words, and calls the command that they ask for.
fn dispatch<S: Shelf>(alloc: Global, words: &[String], shelf: &mut S) -> Result<(), RunFault>
    ensures { Ran (request_of (map string_bytes words.now)) result (S.state shelf.old) (S.state shelf.new) }
{
    match read_words(alloc, words) {
        Ok(request) => carry_out(alloc, request, shelf),
        Err(WordsFault::NotUnderstood) => Err(refuse_words(shelf)),
        Err(WordsFault::NoMemory) => Err(RunFault::NoMemory),
    }
}

// Calls the command of a request.
fn carry_out<S: Shelf>(alloc: Global, request: Request<'_>, shelf: &mut S) -> Result<(), RunFault>
    requires { HasLimits request }
    ensures { Ran (Some (asked request.entry)) result (S.state shelf.old) (S.state shelf.new) }
{
    match request {
        Request::Gen {
            bench,
            result,
            budgets,
        } => generate_file(alloc, shelf, bench, result, budgets),
        Request::TopUp {
            bench,
            vectors,
            result,
            budgets,
        } => top_up_file(alloc, shelf, bench, vectors, result, budgets),
        Request::Check { bench, result } => check_result(alloc, shelf, bench, result),
        Request::Compact { bench, result, new } => compact_result(alloc, shelf, bench, result, new),
        Request::Synth { n, bench, result } => synthesize(alloc, shelf, n, bench, result),
        _ => work_with_dictionaries(alloc, request, shelf),
    }
}

// Calls the command of a request about dictionaries or adaptive plans, or of one that lists.
fn work_with_dictionaries<S: Shelf>(
    alloc: Global,
    request: Request<'_>,
    shelf: &mut S,
) -> Result<(), RunFault>
    requires limits { HasLimits request }
    requires other { ¬ IsOfResults request }
    ensures { Ran (Some (asked request.entry)) result (S.state shelf.old) (S.state shelf.new) }
{
    match request {
        Request::MakeDict {
            kind,
            bench,
            result,
            dict,
        } => make_dictionary(alloc, shelf, kind, bench, result, dict),
        Request::Convert { old, new } => convert_file(alloc, shelf, old, new),
        Request::Diagnose { dict, log } => diagnose_log(alloc, shelf, dict, log),
        Request::Rank { dict, log, within } => rank_log(alloc, shelf, dict, log, within),
        Request::Adapt {
            bench,
            result,
            plan,
        } => make_plan(alloc, shelf, bench, result, plan),
        Request::Follow { plan, log } => follow_log(alloc, shelf, plan, log),
        _ => list(alloc, request, shelf),
    }
}

// Calls the command of a request that lists.
fn list<S: Shelf>(alloc: Global, request: Request<'_>, shelf: &mut S) -> Result<(), RunFault>
    requires limits { HasLimits request }
    requires other { ¬ IsOfResults request }
    requires no_dictionary { ¬ IsOfDictionaries request }
    ensures { Ran (Some (asked request.entry)) result (S.state shelf.old) (S.state shelf.new) }
{
    match request {
        Request::ListFaults { bench } => list_faults(alloc, shelf, bench),
        Request::Simulate { bench, vectors } => simulate(alloc, shelf, bench, vectors),
        Request::Expect { bench, result, log } => expect_log(alloc, shelf, bench, result, log),
        Request::Suspects {
            bench,
            result,
            log,
            most,
        } => list_suspects(alloc, shelf, bench, result, log, most),
        Request::Cover { bench, result, log } => list_cover(alloc, shelf, bench, result, log),
        Request::Bridges {
            bench,
            result,
            log,
            most,
            within,
        } => list_bridges(alloc, shelf, bench, result, log, most, within),
        _ => list_at(alloc, request, shelf),
    }
}

// Calls the command of a request that lists, or writes a log, by a list of vectors that were applied.
fn list_at<S: Shelf>(alloc: Global, request: Request<'_>, shelf: &mut S) -> Result<(), RunFault>
    requires limits { HasLimits request }
    requires other { ¬ IsOfResults request }
    requires no_dictionary { ¬ IsOfDictionaries request }
    requires no_listing { ¬ IsOfListings request }
    ensures { Ran (Some (asked request.entry)) result (S.state shelf.old) (S.state shelf.new) }
{
    match request {
        Request::ExpectAt {
            bench,
            result,
            log,
            vectors,
        } => expect_log_at(alloc, shelf, bench, result, log, vectors),
        Request::SuspectsAt {
            bench,
            result,
            log,
            most,
            vectors,
        } => list_suspects_at(alloc, shelf, bench, result, log, most, vectors),
        Request::CoverAt {
            bench,
            result,
            log,
            vectors,
        } => list_cover_at(alloc, shelf, bench, result, log, vectors),
        Request::BridgesAt {
            bench,
            result,
            log,
            most,
            within,
            vectors,
        } => list_bridges_at(alloc, shelf, bench, result, log, most, within, vectors),
        _ => unreachable!(),
    }
}
