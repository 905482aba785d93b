//! The words of the command line.
#![tactic(auto)]

ghost use Rattle.std.specs.Prelude.{◌≡◌, ◌≢◌, ◌+◌};
ghost use Rattle.opsproto.specs.declared.read.TheConstants.{LIMIT};

use answers::{Command, Range};
use clap::builder::ValueParser;
use clap::error::ErrorKind;
use clap::{Arg, ArgAction, ArgMatches, Error};
use names::{EVENTS, NODES};
use opsproto::LIMIT;
use processcommands::{Process, coordinator_command, merge_command, node_command, with};
use std::alloc::{AllocError, Global};

/// What `run` is asked to do.
#[derive(Clone, Copy)]
pub struct Order<'a> {
    pub nodes: u32,
    /// Where the coordinator's record is kept, if it is.
    pub record_path: Option<&'a str>,
}

/// What the program is asked to do.
#[derive(Clone, Copy)]
pub enum Request<'a> {
    /// Prints what the command answers for a file.
    Print(Command),
    /// Builds definitions on a farm, and prints their answers.
    Run(Order<'a>),
    /// Is a process of a farm, and answers the lines of the standard input, or merges listings.
    Serve(Process<'a>),
}

impl Request<'_> {
    /// How much of a file is read: of a record all, else one byte past the limit, so that what is longer is refused.
    pub fn most_bytes(self) -> usize
        ensures record { self.entry ≡ Request.Print Command.Record → result ≡ usize.MAX }
        ensures others { self.entry ≢ Request.Print Command.Record → result ≡ LIMIT + 1 }
    {
        match self {
            Request::Print(Command::Record) => usize::MAX,
            _ => LIMIT + 1,
        }
    }
}

/// How a command answers.
#[derive(Clone, Copy)]
pub struct Options {
    /// Whether to say in plain words why something is refused, on the standard error.
    pub explain: bool,
    /// Whether a replay with a refused event, or a run with a failed file, ends with status 1.
    pub strict: bool,
}

/// What the words of the command line say.
pub struct Words<'a> {
    pub request: Request<'a>,
    pub options: Options,
    pub files: Vec<&'a str>,
}

// By hand, so that letting go of one is one step of a proof.
impl<'a> Drop for Words<'a> {
    fn drop(self) {
        let Self {
            request: _,
            options: _,
            files: _,
        } = self;
    }
}

/// What a definition's command reads.
const DEFINITION: &str = "A build definition as BuildKit writes it; `-` is the standard input";

/// What `record` prints.
const RECORD_LINES: &str = "Prints a line for each part that the record has:
  last TICKET
  home NODE
  life NODE LIFE
  gone NODE
  lease TICKET NODE LIFE ASK [shared] [tenure] SLOT..
  retired SLOT
  SLOT NUMBER:TICKET:DIGITS..
`ro=` stands before a slot that may not be written.";

/// A command that reads a file: what it does, and what its lines are.
fn subcommand<'a>(
    alloc: Global,
    name: &'a str,
    about: &'a str,
    lines: &'a str,
    file: &'a str,
) -> Result<clap::Command<'a>, AllocError> {
    let file = Arg::new(alloc, "FILE").required(true).help(file);
    clap::Command::new(alloc, name)
        .about(about)
        .after_help(lines)
        .arg(file)
}

fn check_command<'a>(alloc: Global) -> Result<clap::Command<'a>, AllocError> {
    subcommand(
        alloc,
        "check",
        "Says whether a build definition can be solved, and what its result is",
        "Prints `vertices N result DIGEST INDEX`: how many vertices there are, and the vertex and output of the result.",
        DEFINITION,
    )
}

fn keys_command<'a>(alloc: Global) -> Result<clap::Command<'a>, AllocError> {
    subcommand(
        alloc,
        "keys",
        "Prints the solver key of each vertex: vertices with one key are solved once",
        "Prints `DIGEST KEY` for each vertex, by its place in the definition.",
        DEFINITION,
    )
}

fn wants_command<'a>(alloc: Global) -> Result<clap::Command<'a>, AllocError> {
    subcommand(
        alloc,
        "wants",
        "Prints which cache folders each vertex of a build definition uses",
        "Prints `DIGEST FOLDER..` for each vertex with cache mounts, by its place in the definition; `ro=` stands before a folder that no mount may write.",
        DEFINITION,
    )
}

fn record_command<'a>(alloc: Global) -> Result<clap::Command<'a>, AllocError> {
    subcommand(
        alloc,
        "record",
        "Prints what a coordinator's record keeps, with the log beside it: nodes, leases, retired slots and versions",
        RECORD_LINES,
        "A record that a coordinator saved; `-` is the standard input",
    )
}

fn replay_command<'a>(alloc: Global) -> Result<clap::Command<'a>, AllocError> {
    subcommand(
        alloc,
        "replay",
        "Prints what comes of each event of a schedule, and the versions of each folder after them",
        "Prints a line for each event, and then `SLOT NUMBER:TICKET:DIGITS..` for each slot that has a version.",
        "A schedule; `-` is the standard input",
    )?
    .arg(strict_arg(alloc, "Ends with status 1 if an event is refused"))
}

/// What `draw` draws.
const PICTURE: &str =
    "Prints an SVG. Time runs down, with a lifeline for the coordinator and one for each node: an arrow for each delivery, a stub for a \
message that none of the events delivers, bars for lives, leases and executions, and the lines of versions after the last event. At most \
1,000 events are drawn.";

/// The number of an event.
fn event_arg<'a>(alloc: Global, name: &'static str, help: &'static str) -> Arg<'a> {
    Arg::new(alloc, name)
        .long(name)
        .value_name("N")
        .value_parser(ValueParser::Unsigned(1, EVENTS as u64))
        .help(help)
}

fn draw_command<'a>(alloc: Global) -> Result<clap::Command<'a>, AllocError> {
    subcommand(
        alloc,
        "draw",
        "Draws what comes of the events of a schedule",
        PICTURE,
        "A schedule; `-` is the standard input",
    )?
    .arg(event_arg(alloc, "from", "The first event that is drawn, else 1"))?
    .arg(event_arg(alloc, "to", "The last one, else the 200th from the first"))
}

fn strict_arg<'a>(alloc: Global, help: &'static str) -> Arg<'a> {
    Arg::new(alloc, "strict")
        .long("strict")
        .action(ArgAction::SetTrue)
        .help(help)
}

/// What the executor of `run` does.
const SCRIPTS: &str =
    "Prints `FILE DIGEST` or `FILE failed` for each file, in order, and then `commits C`: how many \
executions added versions to cache folders.

No command is really run. An execution does what its command's words say:
  put DEST PATH TEXT   puts a file into the first cache mount at DEST
  remove DEST PATH     removes one
  fail                 fails
Any other command changes nothing.";

fn nodes_arg<'a>(alloc: Global) -> Arg<'a> {
    Arg::new(alloc, "nodes")
        .long("nodes")
        .value_name("N")
        .required(true)
        .value_parser(ValueParser::Unsigned(1, NODES as u64))
        .help("How many nodes the farm has; the files are built on them in turn")
}

fn record_arg<'a>(alloc: Global) -> Arg<'a> {
    Arg::new(alloc, "record")
        .long("record")
        .value_name("PATH")
        .value_parser(ValueParser::NonEmptyString)
        .help("Keeps the coordinator's record in this file, as `farmctl record` reads it")
}

fn files_arg<'a>(alloc: Global) -> Arg<'a> {
    Arg::new(alloc, "FILE")
        .required(true)
        .num_args(1..)
        .help(DEFINITION)
}

fn run_command<'a>(alloc: Global) -> Result<clap::Command<'a>, AllocError> {
    clap::Command::new(alloc, "run")
        .about("Builds definitions on a farm, with executors that run scripts")
        .after_help(SCRIPTS)
        .arg(nodes_arg(alloc))?
        .arg(record_arg(alloc))?
        .arg(strict_arg(alloc, "Ends with status 1 if a file failed"))?
        .arg(files_arg(alloc))
}

/// What the program's help says below its commands.
const NOTES: &str = "Without words it does `replay -`.

Status:
  0  done
  1  an input was refused, or can't be read; with --strict, an event was refused, or a file failed
  2  the words are no command
  3  memory ran out
  4  the answer could not be written, or a run or a process ended with a fault

Example: farmctl replay examples/fenced.schedule";

/// The program with the commands that read a build definition.
fn with_definitions<'a>(
    alloc: Global,
    program: clap::Command<'a>,
) -> Result<clap::Command<'a>, AllocError> {
    let program = with(program, check_command(alloc))?;
    let program = with(program, keys_command(alloc))?;
    with(program, wants_command(alloc))
}

/// The program with the commands that read what a farm kept, or is to do.
fn with_records<'a>(
    alloc: Global,
    program: clap::Command<'a>,
) -> Result<clap::Command<'a>, AllocError> {
    let program = with(program, record_command(alloc))?;
    let program = with(program, replay_command(alloc))?;
    with(program, draw_command(alloc))
}

/// The program with the commands that are a farm, or a part of one.
fn with_farms<'a>(
    alloc: Global,
    program: clap::Command<'a>,
) -> Result<clap::Command<'a>, AllocError> {
    let program = with(program, run_command(alloc))?;
    let program = with(program, coordinator_command(alloc))?;
    let program = with(program, node_command(alloc))?;
    with(program, merge_command(alloc))
}

fn explain_arg<'a>(alloc: Global) -> Arg<'a> {
    Arg::new(alloc, "explain")
        .long("explain")
        .action(ArgAction::SetTrue)
        .global(true)
        .help("Says in plain words why something is refused or failed, on the standard error")
}

/// The program without its commands.
fn bare_program<'a>(alloc: Global) -> Result<clap::Command<'a>, AllocError> {
    clap::Command::new(alloc, "farmctl")
        .bin_name("farmctl")?
        .version("0.1.0")
        .about("The solving core of a container build farm")
        .after_help(NOTES)
        .no_binary_name(true)
        .subcommand_required(true)
        .arg(explain_arg(alloc))
}

fn farmctl<'a>(alloc: Global) -> Result<clap::Command<'a>, AllocError> {
    let program = bare_program(alloc)?;
    let program = with_definitions(alloc, program)?;
    let program = with_records(alloc, program)?;
    with_farms(alloc, program)
}

/// Which events are to be drawn.
fn range_of(found: &ArgMatches<'_>) -> Range {
    let first: usize = found.get_one("from").unwrap_or(1);
    let last = found.get_one("to").unwrap_or(first.saturating_add(199));
    Range { first, last }
}

/// What the command of this name is asked to do.
fn named<'a>(name: &str, found: &ArgMatches<'a>) -> Request<'a> {
    match name {
        "check" => Request::Print(Command::Check),
        "keys" => Request::Print(Command::Keys),
        "wants" => Request::Print(Command::Wants),
        "record" => Request::Print(Command::Record),
        "draw" => Request::Print(Command::Draw(range_of(found))),
        "run" => Request::Run(Order {
            nodes: found.get_one("nodes").unwrap_or(1),
            record_path: found.get_str("record"),
        }),
        _ => match processcommands::named(name, found) {
            Some(process) => Request::Serve(process),
            None => Request::Print(Command::Replay),
        },
    }
}

/// The files that were named.
fn files_of<'a>(alloc: Global, found: &ArgMatches<'a>) -> Result<Vec<&'a str>, AllocError> {
    let mut files = Vec::new(alloc);
    for file in found.get_strs("FILE").unwrap_or(&[]) {
        files.push(*file)?;
    }
    Ok(files)
}

/// The replay of the standard input.
fn default_words<'a>(alloc: Global) -> Result<Words<'a>, AllocError> {
    Ok(Words {
        request: Request::Print(Command::Replay),
        options: Options {
            explain: false,
            strict: false,
        },
        files: vec![in alloc; "-"]?,
    })
}

/// What the words behind a command of this name say.
fn found_words<'a>(
    alloc: Global,
    name: &str,
    found: &ArgMatches<'a>,
) -> Result<Words<'a>, AllocError> {
    Ok(Words {
        request: named(name, found),
        options: Options {
            explain: found.get_flag("explain"),
            strict: matches!(name, "replay" | "run") && found.get_flag("strict"),
        },
        files: files_of(alloc, found)?,
    })
}

/// Why words, each sound, don't go together, if they don't.
fn disagreement(request: Request<'_>) -> Option<&'static str> {
    match request {
        Request::Print(Command::Draw(range)) if range.last < range.first => Some(
            "--to is below --from",
        ),
        Request::Serve(process) => processcommands::disagreement(process),
        _ => None,
    }
}

/// What the words say; without words, the replay of the standard input. An error is a usage fault, the help that was
/// asked for, or out of memory.
pub fn words_of<'a>(alloc: Global, words: &'a [String]) -> Result<Words<'a>, Error> {
    if words.is_empty() {
        return Ok(default_words(alloc)?);
    }
    let mut program = farmctl(alloc)?;
    let matches = program.try_get_matches_from_mut(words)?;
    let found = match matches.subcommand() {
        Some((name, found)) => found_words(alloc, name, found),
        None => default_words(alloc),
    }?;
    match disagreement(found.request) {
        Some(said) => Err(program.error(ErrorKind::ValueValidation, said)?),
        None => Ok(found),
    }
}
