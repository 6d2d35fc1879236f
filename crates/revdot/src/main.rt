//! The program `revdot`. It draws the network that the lines of standard input leave, in the DOT language of Graphviz,
//! or writes a page for a browser with the story of these lines.
#![tactic(auto)]

mod answered_session;
mod asked;
mod changes;
mod comments;
mod drawing;
mod graphs;
mod links;
mod page;
mod rounds;
mod settled;
mod story;
mod strips;
mod turns;
mod viewer;

use drawing::{Picture, draw};
use fr_bytes::RunFault;
use fr_route::VERSION;
use graphs::Direction;
use page::page;
use std::alloc::Global;
use std::env::Args;
use std::io::{BufWriter, ErrorKind};
use std::process::ExitCode;
use std::rt::Env;
use std::{env, io};
use viewer::{FIRST_PART, LAST_PART};

/// The help text.
const HELP: &str = "\
Draws the network that the lines of standard input leave, as a graph in Graphviz's language.

usage: revdot [--ways | --turns] [--rankdir DIRECTION] < LINES | dot -Tsvg > PICTURE
       revdot --page < LINES > PAGE

  --ways               the network with bold arrows to the nearest ways, and hollow heads at the next hops
  --turns              a graph for each turn of the last round, and then the network (dot -Tsvg -O FILE draws each)
  --rankdir DIRECTION  where graphs lead: TB from top to bottom, as without this option; LR from left to right; BT or RL
  --page               a page for a browser: the answer to each line, and each round turn by turn and push by push
  -h, --help           this text
  -V, --version        the version

A line that begins with # is a comment.
";

/// What is said of a word that may be the name of a file.
const TIP: &str = "\n  tip: revdot reads requests from standard input, as in 'revdot < FILE'";

/// What the program is to do.
#[derive(Drop)]
enum Task {
    /// Draw this picture, in this direction.
    Draw(Picture, Direction),
    /// Write the page.
    Page,
    /// Print the help text.
    Help,
    /// Print the version.
    Version,
    /// Refuse the command line.
    Refuse(UsageFault),
}

/// What is wrong with a command line.
#[derive(Drop)]
enum UsageFault {
    /// This word is unknown.
    Unknown(String),
    /// A word is not UTF-8.
    NotUtf8,
    /// There is no direction, or another word in its place.
    Direction,
}

fn main(rt: HostRuntime) -> ExitCode {
    let end = match task_of(&rt) {
        Ok(Task::Draw(picture, direction)) => draw_picture(&rt, picture, direction),
        Ok(Task::Page) => write_page(&rt),
        Ok(Task::Help) => print_result(rt.print(HELP)),
        Ok(Task::Version) => print_result(println!(rt; "revdot {VERSION}")),
        Ok(Task::Refuse(fault)) => {
            refuse(&rt, fault);
            return ExitCode::from(2);
        }
        Err(fault) => Err(fault),
    };
    match end {
        Ok(()) => ExitCode::SUCCESS,
        Err(fault) => {
            let _ = eprintln!(rt; "revdot: {fault}");
            ExitCode::FAILURE
        }
    }
}

/// The result of printing a text.
fn print_result(written: io::Result<()>) -> Result<(), RunFault> {
    match written {
        Ok(()) => Ok(()),
        Err(_) => Err(RunFault::Write),
    }
}

/// Says what is wrong with the command line.
fn refuse<R: Eprint>(rt: &R, fault: UsageFault) {
    let _ = match fault {
        UsageFault::Unknown(word) => {
            let tip = if word.starts_with('-') { "" } else { TIP };
            eprintln!(rt; "revdot: unknown word '{word}', try 'revdot --help'{tip}")
        }
        UsageFault::NotUtf8 => eprintln!(rt; "revdot: a word is not UTF-8, try 'revdot --help'"),
        UsageFault::Direction => {
            eprintln!(rt; "revdot: --rankdir takes TB, LR, BT or RL, try 'revdot --help'")
        }
    };
}

/// The task of the command line.
fn task_of<R: Env + Alloc<A = Global>>(rt: &R) -> Result<Task, RunFault> {
    match env::args(rt) {
        Ok(words) => Ok(task_of_words(words)),
        Err(error) if error.kind() == ErrorKind::InvalidData => {
            Ok(Task::Refuse(UsageFault::NotUtf8))
        }
        Err(_) => Err(RunFault::Memory),
    }
}

/// The task of the words of a command line after the first, which names the program; without such words, to draw the
/// network. The first word that asks for help or the version, or is wrong, decides. Otherwise the last picture and the
/// last direction decide.
fn task_of_words(words: Args) -> Task {
    let mut picture = Some(Picture::Network);
    let mut direction = Direction::TopToBottom;
    let mut is_direction_next = false;
    for word in words.skip(1) {
        let name = if is_direction_next {
            Some(word.as_str())
        } else {
            word.strip_prefix("--rankdir=")
        };
        if let Some(name) = name {
            let Some(named) = direction_of(name) else {
                return Task::Refuse(UsageFault::Direction);
            };
            direction = named;
            is_direction_next = false;
            continue;
        }
        match word.as_str() {
            "--ways" => picture = Some(Picture::Ways),
            "--turns" => picture = Some(Picture::Turns),
            "--page" => picture = None,
            "--rankdir" => is_direction_next = true,
            "-h" | "--help" => return Task::Help,
            "-V" | "--version" => return Task::Version,
            _ => return Task::Refuse(UsageFault::Unknown(word)),
        }
    }
    match picture {
        _ if is_direction_next => Task::Refuse(UsageFault::Direction),
        Some(picture) => Task::Draw(picture, direction),
        None => Task::Page,
    }
}

/// The direction with this name of Graphviz.
fn direction_of(name: &str) -> Option<Direction> {
    match name {
        "TB" => Some(Direction::TopToBottom),
        "LR" => Some(Direction::LeftToRight),
        "BT" => Some(Direction::BottomToTop),
        "RL" => Some(Direction::RightToLeft),
        _ => None,
    }
}

/// Draws the input of the program to its output.
fn draw_picture<R: Alloc<A = Global> + Input + Print>(
    rt: &R,
    picture: Picture,
    direction: Direction,
) -> Result<(), RunFault> {
    let alloc = rt.alloc();
    let Ok(mut out) = BufWriter::new(alloc, io::writer(rt)) else {
        return Err(RunFault::Memory);
    };
    draw(alloc, &mut rt.reader(), &mut out, picture, direction)
}

/// Writes the page of the input of the program to its output.
fn write_page<R: Alloc<A = Global> + Input + Print>(rt: &R) -> Result<(), RunFault> {
    let alloc = rt.alloc();
    let Ok(mut out) = BufWriter::new(alloc, io::writer(rt)) else {
        return Err(RunFault::Memory);
    };
    let (first_part, last_part) = viewer_parts();
    page(alloc, &mut rt.reader(), &mut out, first_part, last_part)
}

/// What a page begins and ends with. A function of its own, so that the proof of its caller does not read these texts.
fn viewer_parts() -> (&'static str, &'static str) {
    (FIRST_PART, LAST_PART)
}
