//! The command line, as `clap` reads it.

ghost use Rattle.std.specs.Prelude.{◌≡◌, [], IfOk, IfErr, map, codes, pos, false, Ok};
ghost use Rattle.clap.specs.Simple.{on_top};
ghost use Rattle.clap.specs.Words.{App, HasKind, fault_of, new_app, rule_of, subcommand_of};
ghost use Rattle.clap.specs.Words.{subcommand_rows_of, with_rule, with_subcommand};
ghost use Rattle.fr_core.specs.Limits.{most_workers};
ghost use Rattle.fr_cli.specs.Draws.{most_steps};
ghost use Rattle.fr_cli.specs.Commands.{command, most_budget, program};
ghost use Rattle.fr_cli.specs.Commands.{play_command as play_command_of, planning as planning_of};
ghost use Rattle.fr_cli.specs.Commands.{answering as answering_of, flag as flag_of, option as option_of};
ghost use Rattle.fr_cli.specs.Making.{Makes};

use crate::draws::MAX_STEPS;
use clap::builder::ValueParser;
use clap::{Arg, ArgAction, ArgMatches, Command, Error, value_parser};
use fr_core::MAX_WORKERS;
use std::alloc::{AllocError, Global};

const ABOUT: &str =
    "Keeps a network of directed links free of loops, and reverses links until they lead to one destination";

const EXAMPLE: &str = "Example:\n  revroute run < requests > answers";

const RUN_ABOUT: &str =
    "Answers requests: each is a line of JSON on standard input, and each answer is a line on standard output";

const SERVE_ABOUT: &str =
    "Answers requests as run does, but each one as soon as its line has arrived; the input can have any length; use --alone";

const REQUESTS: &str = "\
Requests:
  [\"net\",N,D,[[U,V],..]]  replace the network: N nodes, destination D, and links from U to V
  [\"cut\",U,V]            remove the link between U and V
  [\"add\",U,V]            add a link from U to V
  [\"join\",U,V]           add a link from U to V, or from V to U to avoid a cycle
  [\"batch\",[EDIT,..]]    make edits of these three kinds in order, then one round
  [\"dest\",D]             make D the destination
  [\"walk\",X]             report the route of node X
  [\"links\"]  [\"counts\"]  [\"hops\"]  report all links, counts or next hops
  [\"ways\"]  [\"ways\",X]   report all ways of each node or of X, nearest first
  [\"nearest\",X]         report a route of the fewest links from X along the ways
  [\"pushes\",[HOP,..]]    order the pushes from this table to the next hops, or to a second table
  [\"phases\",[[W,..],..]]  list the pushes of two phases from these ways to the ways of each node

Answers, and with --json:
  turned T cut K      {\"turned\":T,\"cut_off\":K,\"changed\":[[X,HOP],..]}  after a change
      with --ways     {.. \"changed\":[[X,HOP],..],\"shrink\":[[X,[W,W]],..],\"grow\":[[X,[W,W]],..]}
  walk X Y ..         {\"walk\":[X,Y,..]}, or {\"walk\":null} if X is cut off
  links U>V ..        {\"links\":[[U,V],..]}
  counts C ..         {\"counts\":[C,..]}
  hops HOP ..         {\"hops\":[HOP,..]}; a hop is a number, here or cut
  ways W,W W ..       {\"ways\":[[W,W],[W],..]}; or here or cut in place of a list
  nearest X Y ..      {\"nearest\":[X,Y,..]}, or {\"nearest\":null} if X is cut off
  pushes X>HOP ..     {\"pushes\":[[X,HOP],..]}
  phases shrink X>W,W .. grow X>W,W ..  {\"shrink\":[[X,[W,W]],..],\"grow\":[[X,[W,W]],..]}
  refused N           {\"refused\":N,\"fault\":NAME,\"nodes\":[X,..],\"line\":LINE}

Examples:
  echo '[\"net\",3,0,[[0,1],[1,2]]]' | revroute run --workers 2
  revroute run --json --strict < requests > answers
  tail -f requests | revroute serve --alone --json";

const PLAY_ABOUT: &str =
    "Plays a drawn schedule: reads a network, writes the reply to each call, and then the links and the counts";

const PLAY_EXAMPLE: &str =
    "Example:\n  echo '[\"net\",2,0,[[0,1]]]' | revroute play --workers 1 --seed 7 --steps 6";

const RUN_WORKERS: &str = "How many workers turn nodes at the same time, 1 to 16";

const PLAY_WORKERS: &str = "How many workers make the steps, 1 to 16";

const RUN_SEED: &str =
    "Seeds each worker's choice of whom to steal work from first, 0 to 18446744073709551615; no answer depends on it";

const PLAY_SEED: &str = "The seed of the schedule, 0 to 18446744073709551615";

const BUDGET: &str =
    "The most calls that each worker makes in a round, 0 to 1000000000; 0 starts no thread, and is fastest";

const ALONE: &str =
    "One thread makes all turns: the budget is 0, whatever --budget says; fastest, and the way to serve";

const JSON: &str = "Answers are JSON, one object on a line";

const WAYS: &str =
    "The answer to a change also lists what to push to routers that hold all their ways; needs --json";

const STRICT: &str = "Ends with status 3 if a line was refused";

const STEPS: &str = "How many steps the workers make in total, 0 to 10000";

// The texts above contain these limits.
const _: () = prove!(MAX_WORKERS == 16);

const _: () = prove!(MAX_BUDGET == 1_000_000_000);

const _: () = prove!(MAX_STEPS == 10_000);

/// The largest budget that the command line accepts.
pub(crate) const MAX_BUDGET: u32 = 1_000_000_000;

/// A command, unless an allocation was refused while it was made.
type Made<'a> = Result<Command<'a>, AllocError>;

/// What the words of a command line say, for a program with this version. The first word is the program's name.
pub(crate) fn matches_of<'a>(
    alloc: Global,
    words: &'a [&'a str],
    version: &'a str,
) -> Result<ArgMatches<'a>, Error>
    ensures taken { IfOk result (λ _. fault_of command (map (λ s. s.now) words.entry.now) ≡ []) }
    ensures ok { IfOk result (λ m. subcommand_rows_of m ≡ subcommand_of command (map (λ s. s.now) words.entry.now)) }
    ensures err { IfErr result (HasKind (fault_of command (map (λ s. s.now) words.entry.now))) }
{
    whole_command(alloc, version)?.try_get_matches_from(words)
}

/// The program with its subcommands.
fn whole_command<'a>(alloc: Global, version: &'a str) -> Made<'a>
    ensures { Makes command result }
{
    let command = bare_command(alloc, version);
    let command = with_subcommand(command, answering_command(alloc, "run", RUN_ABOUT));
    let command = with_subcommand(command, answering_command(alloc, "serve", SERVE_ABOUT));
    with_subcommand(command, play_command(alloc))
}

/// The program before its subcommands. One of them must be given, and the program prints its version.
#[tactic(auto, unfolding(crate::specs::Making::Makes))]
fn bare_command<'a>(alloc: Global, version: &'a str) -> Made<'a>
    ensures { Makes (on_top program (new_app (codes "revroute"))) result }
{
    Ok(
        Command::new(alloc, "revroute")
            .about(ABOUT)
            .after_help(EXAMPLE)
            .version(version)
            .subcommand_required(true),
    )
}

/// A subcommand that answers requests. Its help lists them.
fn answering_command<'a>(alloc: Global, name: &'a str, about: &'a str) -> Made<'a>
    ensures { Makes (answering_of name.entry.now) result }
{
    let command = planning_command(alloc, name, about);
    let command = with_flag(alloc, command, "alone", ALONE);
    let command = with_flag(alloc, command, "json", JSON);
    let command = with_flag(alloc, command, "ways", WAYS);
    with_flag(alloc, command, "strict", STRICT)
}

/// A subcommand that settles networks with a plan.
fn planning_command<'a>(alloc: Global, name: &'a str, about: &'a str) -> Made<'a>
    ensures { Makes (planning_of name.entry.now) result }
{
    let command = described_command(alloc, name, about, REQUESTS);
    let workers = option(alloc, "workers", "4", worker_numbers(), RUN_WORKERS);
    let seed = option(alloc, "seed", "0", value_parser!(u64), RUN_SEED);
    let budget = option(alloc, "budget", "1000000", budget_numbers(), BUDGET);
    with_option(with_option(with_option(command, workers), seed), budget)
}

/// The subcommand that plays a drawn schedule.
fn play_command<'a>(alloc: Global) -> Made<'a>
    ensures { Makes play_command_of result }
{
    let command = described_command(alloc, "play", PLAY_ABOUT, PLAY_EXAMPLE);
    let workers = option(alloc, "workers", "2", worker_numbers(), PLAY_WORKERS);
    let seed = option(alloc, "seed", "0", value_parser!(u64), PLAY_SEED);
    let steps = option(alloc, "steps", "100", step_numbers(), STEPS);
    with_option(with_option(with_option(command, workers), seed), steps)
}

/// A command with this name, a description and an example.
#[tactic(auto, unfolding(crate::specs::Making::Makes))]
fn described_command<'a>(alloc: Global, name: &'a str, about: &'a str, example: &'a str) -> Made<'a>
    ensures { Makes (new_app name.entry.now) result }
{
    Ok(Command::new(alloc, name).about(about).after_help(example))
}

/// The command with one more subcommand.
#[tactic(auto, unfolding(crate::specs::Making::Makes))]
fn with_subcommand<'a>(command: Made<'a>, subcommand: Made<'a>) -> Made<'a>
    ensures { (app sub : App) → Makes app command.entry → Makes sub subcommand.entry
        → Makes (with_subcommand app sub.top) result }
{
    with_made_subcommand(command, subcommand?)
}

/// The same, after the subcommand was made.
#[tactic(auto, unfolding(crate::specs::Making::Makes))]
fn with_made_subcommand<'a>(command: Made<'a>, subcommand: Command<'a>) -> Made<'a>
    ensures { (app sub : App) → Makes app command.entry → Makes sub (Ok subcommand.entry)
        → Makes (with_subcommand app sub.top) result }
{
    command?.subcommand(subcommand)
}

/// The command with one more flag.
fn with_flag<'a>(alloc: Global, command: Made<'a>, name: &'a str, help: &'a str) -> Made<'a>
    ensures { (app : App) → Makes app command.entry → Makes (with_rule app (flag_of name.entry.now)) result }
{
    with_option(command, flag(alloc, name, help))
}

/// The command with one more option or flag.
#[tactic(auto, unfolding(crate::specs::Making::Makes))]
fn with_option<'a>(command: Made<'a>, option: Arg<'a>) -> Made<'a>
    requires { option.global ≡ false }
    ensures { (app : App) → Makes app command.entry → Makes (with_rule app (rule_of option.entry)) result }
{
    command?.arg(option)
}

/// An option with a number. `default` is its text if the option is not given.
fn option<'a>(
    alloc: Global,
    name: &'a str,
    default: &'a str,
    numbers: ValueParser<'a>,
    help: &'a str,
) -> Arg<'a>
    ensures rule { rule_of result ≡ option_of name.entry.now default.entry.now numbers.entry }
    ensures local { result.global ≡ false }
{
    Arg::new(alloc, name)
        .long(name)
        .value_name("N")
        .default_value(default)
        .value_parser(numbers)
        .help(help)
}

/// A flag.
fn flag<'a>(alloc: Global, name: &'a str, help: &'a str) -> Arg<'a>
    ensures rule { rule_of result ≡ flag_of name.entry.now }
    ensures local { result.global ≡ false }
{
    Arg::new(alloc, name)
        .long(name)
        .action(ArgAction::SetTrue)
        .help(help)
}

fn worker_numbers<'a>() -> ValueParser<'a>
    ensures { result ≡ ValueParser.Signed (pos 1) (pos most_workers) }
{
    value_parser!(u32).range(1..=i64::from(MAX_WORKERS))
}

fn budget_numbers<'a>() -> ValueParser<'a>
    ensures { result ≡ ValueParser.Signed (pos 0) (pos most_budget) }
{
    value_parser!(u32).range(0..=i64::from(MAX_BUDGET))
}

fn step_numbers<'a>() -> ValueParser<'a>
    ensures { result ≡ ValueParser.Signed (pos 0) (pos most_steps) }
{
    value_parser!(u32).range(0..=i64::from(MAX_STEPS))
}
