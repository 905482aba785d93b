//! The words of the commands.

use super::places::{CoordinatorPlace, MergePlace, NodePlace};
use clap::builder::ValueParser;
use clap::error::ErrorKind;
use clap::{Arg, ArgMatches, Error};
use merging::{Rule, Side};
use names::{NODES, NodeId};
use std::alloc::{AllocError, Global};

/// A process of a farm, which answers the lines of the standard input, or one that merges listings.
#[derive(Clone, Copy)]
pub enum Process<'a> {
    Coordinator(CoordinatorPlace<'a>),
    Node(NodePlace<'a>),
    Merge(MergePlace<'a>),
}

/// What `coordinator` reads and prints.
const COORDINATOR_LINES: &str =
    "Prints `= started`, and then the answer to each line of the standard input, up to its end: lines `m SEALED` to be sent, \
facts `: ..`, and last `= ` with what was done. A line is one of
  m SEALED     what a node says, with its MAC under the key of this node
  withdraw T   ends the lease of this ticket
  retire N     hears this node no more
  prune SLOT   empties this slot
  nudge        sends grants again
  status       shows who has what, and who waits
  line SLOT    shows the versions of this slot
  needed       shows the contents that must not be forgotten

Status 4 with `fault Locked`: another process has the record.

Example: head -c 32 /dev/urandom >key && echo status | farmctl coordinator --record kept --key key";

/// A file or a folder that has to be named.
fn place_arg<'a>(
    alloc: Global,
    name: &'static str,
    value: &'static str,
    help: &'static str,
) -> Arg<'a> {
    Arg::new(alloc, name)
        .long(name)
        .value_name(value)
        .required(true)
        .value_parser(ValueParser::NonEmptyString)
        .help(help)
}

/// The command `coordinator`.
pub fn coordinator_command<'a>(alloc: Global) -> Result<clap::Command<'a>, AllocError> {
    let record =
        "The file of its record, made where it isn't there; a log and a lock stand beside it";
    let key =
        "The file of the farm's key, of 32 bytes or more, of which the key of each node is made";
    clap::Command::new(alloc, "coordinator")
        .about("Is the coordinator of a farm, whose nodes' lines come on the standard input")
        .after_help(COORDINATOR_LINES)
        .arg(place_arg(alloc, "record", "PATH", record))?
        .arg(place_arg(alloc, "key", "FILE", key))
}

/// What `node` reads and prints.
const NODE_LINES: &str =
    "Prints `= life L` behind its greeting, and then the answer to each line of the standard input, up to its end: lines \
`m SEALED` to be sent, facts `: ..`, and last `= ` with what was done. A line is one of
  m SEALED               what another process says, with its MAC under the key of this node, or a dash where it is of a content
  ask [ro=]FOLDER..      asks for a lease of these folders
  tenure FOLDER          asks for a lease under which many executions use a SHARED folder
  begin T                the execution begins under the lease of this ticket
  finish T SLOT=FILE..   it is over, and left these contents
  abort T                it left nothing
  resend                 sends again what is not answered
  blob FILE              brings a content that this node needs
  content DIGEST FILE    puts a content into this file
  forget DIGEST          stores a content no longer
  state A                shows how an ask stands

Status 4 with `fault Locked`: another process is this node. After `= refused StoreFault` the process has to end.";

/// The greatest number of a node that the farm will have, and the one of this node.
fn number_arg<'a>(alloc: Global, name: &'static str, help: &'static str) -> Arg<'a> {
    Arg::new(alloc, name)
        .long(name)
        .value_name("N")
        .required(true)
        .value_parser(ValueParser::Unsigned(1, NODES as u64))
        .help(help)
}

/// The command `node`.
pub fn node_command<'a>(alloc: Global) -> Result<clap::Command<'a>, AllocError> {
    let nodes = "The greatest number of a node that the farm will have";
    let store =
        "The folder of its contents and its life, made where it isn't there; a lock stands beside it";
    let key = "The file of the key of this node, which is made of the farm's: 64 digits";
    clap::Command::new(alloc, "node")
        .about("Is a node of a farm, whose agent's lines come on the standard input")
        .after_help(NODE_LINES)
        .arg(number_arg(alloc, "node", "The number of this node, from 1"))?
        .arg(number_arg(alloc, "nodes", nodes))?
        .arg(place_arg(alloc, "store", "DIR", store))?
        .arg(place_arg(alloc, "key", "FILE", key))
}

/// What `merge` reads and prints.
const MERGE_LINES: &str =
    "Each file holds a line `PATH ENTRY` for each path. Prints, by rising path,
  theirs PATH ENTRY   for a path that stands as THEIRS has it, or both have
  mine PATH ENTRY     for one that stands as MINE has it
and then
  conflict PATH       for one that both changed differently, or a folder that stays

Status 1 with `refused BadListing` or `refused TooLong`: a file holds no listing, or a longer one than 64 MiB.";

/// A listing that has to be named.
fn listing_arg<'a>(alloc: Global, name: &'static str, help: &'static str) -> Arg<'a> {
    Arg::new(alloc, name)
        .required(true)
        .value_parser(ValueParser::NonEmptyString)
        .help(help)
}

/// The words of the rules.
const RULES: &[&str] = &["newer", "theirs", "mine"];

/// Who is right where both sides changed a path, differently.
fn rule_arg<'a>(alloc: Global) -> Arg<'a> {
    Arg::new(alloc, "rule")
        .long("rule")
        .value_name("RULE")
        .value_parser(ValueParser::Names(RULES))
        .help(
            "What stands where both changed a path differently: the newer entry, which is the default, or always that side's",
        )
}

/// The command `merge`.
pub fn merge_command<'a>(alloc: Global) -> Result<clap::Command<'a>, AllocError> {
    let base = "The listing of the version that both sides began from";
    let mine = "The listing of what a command left";
    let theirs = "The listing of the version that this is merged into";
    clap::Command::new(alloc, "merge")
        .about(
            "Merges what a command changed of a folder into what the folder has become meanwhile",
        )
        .after_help(MERGE_LINES)
        .arg(rule_arg(alloc))?
        .arg(listing_arg(alloc, "BASE", base))?
        .arg(listing_arg(alloc, "MINE", mine))?
        .arg(listing_arg(alloc, "THEIRS", theirs))
}

/// The rule of this word.
fn rule_of(word: &str) -> Rule {
    match word {
        "theirs" => Rule::Always(Side::Theirs),
        "mine" => Rule::Always(Side::Mine),
        _ => Rule::Newer,
    }
}

/// The process that the command of this name asks for, if it asks for one.
pub fn named<'a>(name: &str, found: &ArgMatches<'a>) -> Option<Process<'a>> {
    match name {
        "coordinator" => Some(Process::Coordinator(CoordinatorPlace {
            record: found.get_str("record").unwrap_or(""),
            key: found.get_str("key").unwrap_or(""),
        })),
        "node" => Some(Process::Node(NodePlace {
            node: NodeId(found.get_one("node").unwrap_or(1)),
            nodes: found.get_one("nodes").unwrap_or(1),
            store: found.get_str("store").unwrap_or(""),
            key: found.get_str("key").unwrap_or(""),
        })),
        "merge" => Some(Process::Merge(MergePlace {
            rule: rule_of(found.get_str("rule").unwrap_or("")),
            base: found.get_str("BASE").unwrap_or(""),
            mine: found.get_str("MINE").unwrap_or(""),
            theirs: found.get_str("THEIRS").unwrap_or(""),
        })),
        _ => None,
    }
}

/// Why words, each sound, don't go together, if they don't.
pub fn disagreement(process: Process<'_>) -> Option<&'static str> {
    match process {
        Process::Node(place) if place.nodes < place.node.0 => Some("--node is above --nodes"),
        _ => None,
    }
}

/// What the help of the program of these commands says below them.
const NOTES: &str =
    "They are what they are in `farmctl`, which has more commands, and end with the same statuses.";

/// The program with one more command, where there is memory for it.
pub fn with<'a>(
    program: clap::Command<'a>,
    command: Result<clap::Command<'a>, AllocError>,
) -> Result<clap::Command<'a>, AllocError> {
    let command = command?;
    program.subcommand(command)
}

/// The program without its commands.
fn bare_program<'a>(alloc: Global) -> Result<clap::Command<'a>, AllocError> {
    let program = clap::Command::new(alloc, "farmd")
        .bin_name("farmd")?
        .version("0.1.0")
        .about(
            "The processes of a container build farm: its coordinator, its nodes, and the merge of a folder's versions",
        )
        .after_help(NOTES)
        .no_binary_name(true)
        .subcommand_required(true);
    Ok(program)
}

/// The program of these commands alone.
fn farmd<'a>(alloc: Global) -> Result<clap::Command<'a>, AllocError> {
    let program = bare_program(alloc)?;
    let program = with(program, coordinator_command(alloc))?;
    let program = with(program, node_command(alloc))?;
    with(program, merge_command(alloc))
}

/// The process that words ask for.
fn asked<'a>(matches: &ArgMatches<'a>) -> Option<Process<'a>> {
    let (name, found) = matches.subcommand()?;
    named(name, found)
}

/// The process that the program is asked for by these words.
fn parsed<'a>(program: &mut clap::Command<'a>, words: &'a [String]) -> Result<Process<'a>, Error> {
    let matches = program.try_get_matches_from_mut(words)?;
    let found = asked(&matches);
    drop(matches);
    let said = match found {
        Some(process) => disagreement(process),
        None => Some("a command is wanted"),
    };
    match (found, said) {
        (Some(process), None) => Ok(process),
        (_, said) => Err(program.error(ErrorKind::ValueValidation, said.unwrap_or(""))?),
    }
}

/// The process that the words ask for. An error is a usage fault, the help that was asked for, or out of memory.
pub fn process_of<'a>(alloc: Global, words: &'a [String]) -> Result<Process<'a>, Error> {
    let mut program = farmd(alloc)?;
    parsed(&mut program, words)
}
