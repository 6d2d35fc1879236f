//! What the words of a command line ask for.

ghost use Rattle.std.specs.Prelude.{◌≡◌, ◌≤◌, ◌↔◌, IsTrue, Some, IfOk, IfErr, IfSome, IsNone, map, codes};
ghost use Rattle.clap.specs.Values.{kind_of};
ghost use Rattle.clap.specs.Words.{found_of, rows_of};
ghost use Rattle.fr_cli.specs.Commands.{number_of, HasNumber, IsGiven, LacksJson, most_budget, most_seed};
ghost use Rattle.fr_cli.specs.Tasks.{IsBudgetIn, IsPlanIn, IsDrawIn, IsTaskIn, IsTaskOf};
ghost use Rattle.fr_cli.specs.Tasks.{HasBudget, HasDraw, HasPlan, HasTask};
ghost use Rattle.fr_cli.specs.Tasks.{IsCommandLineIn, IsCommandLineOf, IsEndOf, IsUsageError, IsUsageOf, IsFaultOf};

use crate::command::{MAX_BUDGET, matches_of};
use crate::draws::{Draw, MAX_STEPS};
use clap::error::ErrorKind;
use clap::{ArgMatches, Error};
use fr_core::MAX_WORKERS;
use fr_crew::Plan;
use std::alloc::{AllocError, Global};
use thiserror::Error as FaultError;

/// The text that `clap` writes before the usage.
const USAGE: &str = "\n\nUsage:";

/// The same text after a tip for users who name a file.
const USAGE_WITH_TIP: &str =
    "\n\n  tip: revroute reads requests from standard input, as in 'revroute run < FILE'\n\nUsage:";

/// The text for `--ways` without `--json`, in the form of the texts of `clap`.
const WAYS_WITHOUT_JSON: &str = "\
error: the argument '--ways' needs '--json'

Usage: revroute run --json --ways [OPTIONS]
       revroute serve --json --ways [OPTIONS]

For more information, try '--help'.";

/// What the program is to do.
#[derive(Clone, Copy, Debug, PartialEq, Eq)]
pub enum Task {
    /// Answer the requests of the input, with this plan for each round.
    Run(Plan),
    /// Answer each request as it comes, with this plan for each round.
    Serve(Plan),
    /// Play the schedule of this draw on the network of the input.
    Play(Draw),
}

/// What the words of a command line ask for.
#[derive(Clone, Copy, Debug, PartialEq, Eq)]
pub struct CommandLine {
    /// What the program is to do.
    pub task: Task,
    /// Whether answers are JSON (`--json`). Always `false` for `play`, which has no such flag.
    pub json: bool,
    /// Whether the answers to changes also list what to push to routers that hold all their ways (`--ways`). Only
    /// `true` if `json` is.
    pub ways: bool,
    /// Whether the program is to report by its exit status that it refused a line (`--strict`). Always `false` for
    /// `play`.
    pub strict: bool,
}

/// Why the words of a command line do not ask for a task.
#[derive(Debug, Drop, FaultError, PartialEq, Eq)]
pub enum TaskFault {
    /// The words ask for help, and the text is the help (`asked`); or they are not those of the command line, and the
    /// text says what is wrong.
    #[error("{text}")]
    Usage { text: String, asked: bool },
    /// The words ask for the version, and the text is the version.
    #[error("{text}")]
    Version { text: String },
    /// An allocation was refused.
    #[error("no memory")]
    Memory,
}

/// What the words of a command line ask for, for a program with this version. The first word is the program's name.
/// `specs/Commands.antt` has the command line as `clap` reads it.
///
/// The task is `run` or `serve`, with 1 to 16 workers (4 if not given), any seed (0) and a budget of at most
/// 1,000,000,000 calls (1,000,000); or `play`, with 1 to 16 workers (2), any seed (0) and at most 10,000 steps (100).
/// `run` and `serve` have the flags `--json`, `--ways`, which needs `--json`, `--strict`, and `--alone`, which makes
/// the budget 0.
///
/// Fails with `Version` if the words ask for the version, with `Usage` if they ask for help (`asked`), are not those of
/// the command line, or have `--ways` without `--json`, and with `Memory` if an allocation is refused. O(b) for b bytes
/// of words.
pub fn command_line<'a>(
    alloc: Global,
    words: &'a [&'a str],
    version: &'a str,
) -> Result<CommandLine, TaskFault>
    // The task and the flags are exactly as `clap` reads the words.
    ensures ok { IfOk result (IsCommandLineIn (map (λ s. s.now) words.entry.now)) }
    // `Usage` only if `clap` finds a fault, help was asked for, or `--ways` was given without `--json`, which is a
    // usage error. `Version` only if the version was asked for.
    ensures fault { IfErr result (IsFaultOf (map (λ s. s.now) words.entry.now)) }
{
    let matches = match matches_of(alloc, words, version) {
        Ok(matches) => matches,
        Err(error) => return Err(usage_fault(alloc, &error)),
    };
    // `clap` accepts no words without a subcommand. Its contract does not say so, so this case needs an answer.
    match matches.subcommand() {
        Some((_, options)) if has_ways_without_json(options) => Err(ways_without_json(alloc)),
        Some((name, options)) => command_line_in(name, options).ok_or(TaskFault::Memory),
        None => Err(TaskFault::Memory),
    }
}

/// The task of a command line. The words, the faults and the cost are those of [`command_line`].
pub fn task_of<'a>(alloc: Global, words: &'a [&'a str], version: &'a str) -> Result<Task, TaskFault>
    // As for `command_line`.
    ensures ok { IfOk result (IsTaskIn (map (λ s. s.now) words.entry.now)) }
    ensures fault { IfErr result (IsFaultOf (map (λ s. s.now) words.entry.now)) }
{
    match command_line(alloc, words, version) {
        Ok(line) => Ok(line.task),
        Err(fault) => Err(fault),
    }
}

/// The command line of a subcommand and its options.
fn command_line_in(name: &str, options: &ArgMatches) -> Option<CommandLine>
    ensures some { IfSome result (IsCommandLineOf name.now (rows_of (found_of options.now))) }
    ensures none { IsNone result → ¬ HasTask name.now (rows_of (found_of options.now)) }
{
    Some(CommandLine {
        task: task_in(name, options)?,
        json: is_given(options, "json"),
        ways: is_given(options, "ways"),
        strict: is_given(options, "strict"),
    })
}

/// The task of a subcommand and its options.
fn task_in(name: &str, options: &ArgMatches) -> Option<Task>
    ensures some { IfSome result (IsTaskOf name.now (rows_of (found_of options.now))) }
    ensures none { IsNone result → ¬ HasTask name.now (rows_of (found_of options.now)) }
{
    match name {
        "run" => plan_in(options).map(Task::Run),
        "serve" => plan_in(options).map(Task::Serve),
        "play" => draw_in(options).map(Task::Play),
        _ => None,
    }
}

/// The plan of the options.
fn plan_in(options: &ArgMatches) -> Option<Plan>
    ensures some { IfSome result (IsPlanIn (rows_of (found_of options.now))) }
    ensures none { IsNone result → ¬ HasPlan (rows_of (found_of options.now)) }
{
    let workers = number_in(options, "workers", MAX_WORKERS)?;
    let budget = budget_in(options)?;
    Plan::new(workers, seed_in(options)?, u64::from(budget))
}

/// The budget of the options: 0 with `--alone`, whatever `--budget` says.
fn budget_in(options: &ArgMatches) -> Option<u32>
    ensures some { IfSome result (IsBudgetIn (rows_of (found_of options.now))) }
    ensures none { IsNone result → ¬ HasBudget (rows_of (found_of options.now)) }
{
    if is_given(options, "alone") {
        return Some(0);
    }
    number_in(options, "budget", MAX_BUDGET)
}

/// The draw of the options.
fn draw_in(options: &ArgMatches) -> Option<Draw>
    ensures some { IfSome result (IsDrawIn (rows_of (found_of options.now))) }
    ensures none { IsNone result → ¬ HasDraw (rows_of (found_of options.now)) }
{
    let workers = number_in(options, "workers", MAX_WORKERS)?;
    let steps = number_in(options, "steps", MAX_STEPS)?;
    Draw::new(workers, seed_in(options)?, steps)
}

/// The number of an option, if it is at most `most`.
fn number_in(options: &ArgMatches, name: &str, most: u32) -> Option<u32>
    ensures number { IfSome result (λ n. (number_of name.now (rows_of (found_of options.now)) ≡ Some n) × (n ≤ most)) }
    ensures none { IsNone result → ¬ HasNumber most name.now (rows_of (found_of options.now)) }
{
    match options.get_one::<u32>(name) {
        Some(number) if number <= most => Some(number),
        _ => None,
    }
}

/// The number of the option `seed`.
fn seed_in(options: &ArgMatches) -> Option<u64>
    ensures number { IfSome result (λ n. number_of (codes "seed") (rows_of (found_of options.now)) ≡ Some n) }
    ensures none { IsNone result → ¬ HasNumber most_seed (codes "seed") (rows_of (found_of options.now)) }
{
    options.get_one::<u64>("seed")
}

/// Whether a flag was given.
fn is_given(options: &ArgMatches, name: &str) -> bool
    ensures { IsTrue result ↔ IsGiven name.now (rows_of (found_of options.now)) }
{
    // The contract of `get_flag` leaves open what it returns for a text that is not a truth value.
    options.get_one::<bool>(name).unwrap_or(false)
}

/// Whether `--ways` was given without `--json`.
fn has_ways_without_json(options: &ArgMatches) -> bool
    ensures { IsTrue result ↔ LacksJson (rows_of (found_of options.now)) }
{
    is_given(options, "ways") && !is_given(options, "json")
}

/// The fault for `--ways` without `--json`.
fn ways_without_json(alloc: Global) -> TaskFault
    ensures { IsUsageError result }
{
    match String::from_str(alloc, WAYS_WITHOUT_JSON) {
        Ok(text) => TaskFault::Usage { text, asked: false },
        Err(_) => TaskFault::Memory,
    }
}

/// The fault for words that `clap` does not accept, with a text made from the text of `clap`. No clause says what the
/// text is.
fn usage_fault(alloc: Global, error: &Error) -> TaskFault
    ensures { IsUsageOf (kind_of error.now) result }
{
    let Ok(text) = error_text(alloc, error) else {
        return TaskFault::Memory;
    };
    match error.kind() {
        ErrorKind::OutOfMemory => TaskFault::Memory,
        ErrorKind::DisplayVersion => TaskFault::Version { text },
        ErrorKind::DisplayHelp => TaskFault::Usage { text, asked: true },
        _ => TaskFault::Usage { text, asked: false },
    }
}

/// The text of an error. If a superfluous word is not an option, the text has a tip, because the word may name a file.
fn error_text(alloc: Global, error: &Error) -> Result<String, AllocError> {
    let text = error.to_string(alloc)?;
    let is_too_many = matches!(error.kind(), ErrorKind::UnknownArgument);
    if is_too_many && !text.contains("argument '-") {
        text.replacen(alloc, USAGE, USAGE_WITH_TIP, 1)
    } else {
        Ok(text)
    }
}

/// The exit status for a fault, and its text, which is for standard output if the status is 0 and otherwise for
/// standard error. O(1).
pub fn task_end(fault: &TaskFault) -> (u8, &str)
    // The status is 0 for help or the version, 2 for a usage error, and 1 if memory ran out.
    ensures { IsEndOf fault.now result.0 result.1.now }
{
    match fault {
        TaskFault::Usage { text, asked: true } | TaskFault::Version { text } => (0, text.as_str()),
        TaskFault::Usage { text, asked: false } => (2, text.as_str()),
        TaskFault::Memory => (1, "revroute: no memory"),
    }
}
