//! What the program does: reads, answers, prints.
ghost use Rattle.std.specs.Prelude.{◌≡◌, ◌≢◌, ◌++◌, [], ℕ, List, IfErr, OnOk, codes, false};
ghost use Rattle.std.specs.String.{string_bytes};
ghost use Rattle.std.specs.Io.KnownBytes.{Appends};
ghost use Rattle.answers.specs.declared.failure.Failure.TheVariants as failures;
ghost use Rattle.answers.specs.Answers.{IsAnswer, IsRefused};
ghost use Rattle.answers.specs.Failures.{failure_line};
ghost use Rattle.processcommands.specs.declared.statuses.TheConstants.{DONE, REFUSED, FAULT};
ghost use Rattle.commands.specs.Acts.{AnswersAll, FirstFault};

use super::explain::{causes_told, copies_of, explained, push_log_fault};
use super::files::{contents, kept};
use super::running::run_scripts;
use answers::{Command, Explanation, Failure, RefusedEvent, answer, events_told};
use commandline::{Options, Order, Request, Words, words_of};
use processcommands::{DONE, FAULT, MEMORY, REFUSED, print, print_usage};
use std::alloc::{AllocError, Global};
use std::fs::File;
use std::io::{self, Write};
use std::rt::{Clock, Files};
use std::sync::Wait;
use std::thread::Threads;

pub(crate) fn print_failure<E: Write>(alloc: Global, failure: Failure, err: &mut E) -> u8
    ensures not_done { result ≢ DONE }
    ensures refused { result ≡ REFUSED → failure ≢ failures.Memory }
    ensures printed { result ≡ REFUSED → Appends (E.contents err.old) (E.contents err.new) (failure_line failure) }
{
    let status = match failure {
        Failure::Memory => MEMORY,
        _ => REFUSED,
    };
    match failure.line(alloc) {
        Ok(line) => print(err, line.as_str(), status),
        Err(_) => print(err, "out of memory\n", MEMORY),
    }
}

pub(crate) fn print_unreadable<E: Write>(alloc: Global, name: &str, err: &mut E) -> u8
    ensures not_done { result ≢ DONE }
    ensures printed { result ≡ REFUSED → Appends (E.contents err.old) (E.contents err.new) (codes "unreadable " ++ name.now ++ codes "\n") }
{
    match format!(in alloc; "unreadable {name}\n") {
        Ok(line) => print(err, line.as_str(), REFUSED),
        Err(_) => print(err, "out of memory\n", MEMORY),
    }
}

/// What there is to say of the files, if the words ask for it.
#[derive(Drop)]
pub struct Told {
    pub is_wanted: bool,
    pub explanation: Explanation,
}

impl Told {
    /// Nothing is said yet.
    pub fn new(alloc: Global, is_wanted: bool) -> Self
        ensures wanted { result.is_wanted ≡ is_wanted }
        ensures nothing { (string_bytes result.explanation.lines ≡ []) × (result.explanation.has_refused_event ≡ false) }
    {
        Told {
            is_wanted,
            explanation: Explanation {
                lines: String::new(alloc),
                has_refused_event: false,
            },
        }
    }

    /// Says which events of a schedule are refused, unless that was said of one before it.
    fn tell(
        &mut self,
        alloc: Global,
        name: &str,
        refused: &[RefusedEvent],
    ) -> Result<(), AllocError> {
        if self.is_wanted && !refused.is_empty() && !self.explanation.has_refused_event {
            self.explanation = Explanation {
                lines: events_told(alloc, name, refused)?,
                has_refused_event: true,
            };
        }
        Ok(())
    }
}

/// Adds what a command answers for a file. The events that it refuses are told.
fn push_answer(
    alloc: Global,
    command: Command,
    name: &str,
    bytes: Vec<u8>,
    told: &mut Told,
    all: &mut String,
) -> Result<(), Failure>
    ensures printed { OnOk result ((text : List ℕ) × IsAnswer command bytes.items text × (string_bytes all.new ≡ string_bytes all.old ++ text)) }
    ensures refused { IfErr result (IsRefused command bytes.items) }
{
    let answer = answer(alloc, command, bytes)?;
    told.tell(alloc, name, answer.refused.as_slice())?;
    all.push_str(answer.text.as_str())?;
    Ok(())
}

/// Carries out a command on files, each with its bytes or `None` where it can't be read. Nothing is printed
/// before all texts are made; the first fault decides. Returns the status of the program.
pub fn act<O: Write, E: Write>(
    alloc: Global,
    command: Command,
    files: Vec<(String, Option<Vec<u8>>)>,
    told: &mut Told,
    out: &mut O,
    err: &mut E,
) -> u8
    // At status 0 the standard output has the answers of all files, one after the other.
    ensures done { result ≡ DONE → (text : List ℕ) × AnswersAll command files.items text × Appends (O.contents out.old) (O.contents out.new) text }
    // At status 1 the standard error has the line of the first fault. Unless answers are written, or can't be, the standard
    // output stays as it was.
    ensures refused { result ≡ REFUSED → (line : List ℕ) × FirstFault command files.items line × Appends (E.contents err.old) (E.contents err.new) line }
    ensures quiet { result ≢ DONE → result ≢ FAULT → out.new ≡ out.old }
{
    let mut all = String::new(alloc);
    for (name, bytes) in files {
        let Some(bytes) = bytes else {
            return print_unreadable(alloc, name.as_str(), err);
        };
        match push_answer(alloc, command, name.as_str(), bytes, told, &mut all) {
            Ok(()) => {}
            Err(failure) => return print_failure(alloc, failure, err),
        }
    }
    print(out, all.as_str(), DONE)
}

/// What there is to say of a file that was read, or can't be.
fn explanation(
    alloc: Global,
    request: Request,
    name: &str,
    read: &io::Result<Result<Vec<u8>, Failure>>,
) -> Result<Explanation, AllocError> {
    let mut lines = String::new(alloc);
    match read {
        Ok(Ok(bytes)) => return explained(alloc, request, name, bytes.as_slice()),
        Ok(Err(failure)) => push_log_fault(&mut lines, name, *failure)?,
        Err(error) => write!(lines, "{name}: {error}\n")?,
    }
    Ok(Explanation {
        lines,
        has_refused_event: false,
    })
}

/// Prints the explanation behind what was printed, and returns the status: with `--strict` that of a refusal, where something failed.
fn print_explanation<E: Write>(
    options: Options,
    lines: &str,
    has_failed: bool,
    status: u8,
    err: &mut E,
) -> u8 {
    let status = if status == DONE && options.strict && has_failed {
        REFUSED
    } else {
        status
    };
    if options.explain && status <= REFUSED {
        print(err, lines, status)
    } else {
        status
    }
}

/// What a file has for a request, or why it is refused before its bytes are looked at.
fn read<R: Files + Input + AllocGlobal>(
    rt: &R,
    request: Request<'_>,
    name: &str,
) -> io::Result<Result<Vec<u8>, Failure>> {
    match request {
        Request::Print(Command::Record) => kept(rt, name),
        _ => Ok(Ok(contents(rt, name, request.most_bytes())?)),
    }
}

/// Reads the file of this name, and replaces what is said with what there is to say of it where nothing is said yet.
fn read_file<R: Files + Input + AllocGlobal>(
    rt: &R,
    request: Request,
    name: &str,
    told: &mut Told,
) -> Result<Result<Option<Vec<u8>>, Failure>, AllocError> {
    let read = read(rt, request, name);
    if matches!(&read, Err(error) if matches!(error.kind(), io::ErrorKind::OutOfMemory)) {
        return Err(AllocError);
    }
    if told.is_wanted && told.explanation.lines.is_empty() {
        told.explanation = explanation(rt.alloc(), request, name, &read)?;
    }
    match read {
        Ok(Ok(bytes)) => Ok(Ok(Some(bytes))),
        Ok(Err(failure)) => Ok(Err(failure)),
        Err(_) => Ok(Ok(None)),
    }
}

/// The files that were read, each with its bytes or `None` where it can't be read, up to one that is refused as it is read.
#[derive(Drop)]
struct Inputs {
    files: Vec<(String, Option<Vec<u8>>)>,
    refused: Option<Failure>,
}

impl Inputs {
    /// Adds a file of this name.
    fn push(
        &mut self,
        alloc: Global,
        name: &str,
        bytes: Option<Vec<u8>>,
    ) -> Result<(), AllocError> {
        let name = String::from_str(alloc, name)?;
        self.files.push((name, bytes))?;
        Ok(())
    }
}

/// Reads the files that the words name.
fn read_files<R: Files + Input + AllocGlobal>(
    rt: &R,
    words: &Words,
    told: &mut Told,
) -> Result<Inputs, AllocError> {
    let mut inputs = Inputs {
        files: Vec::new(rt.alloc()),
        refused: None,
    };
    for name in &words.files {
        match read_file(rt, words.request, name, told)? {
            Ok(bytes) => inputs.push(rt.alloc(), name, bytes)?,
            Err(failure) => {
                inputs.refused = Some(failure);
                break;
            }
        }
    }
    Ok(inputs)
}

/// Carries out a command on files. One that was refused as it was read comes behind them.
fn act_on_all<O: Write, E: Write>(
    alloc: Global,
    command: Command,
    inputs: Inputs,
    told: &mut Told,
    out: &mut O,
    err: &mut E,
) -> u8 {
    let Inputs { files, refused } = inputs;
    let Some(failure) = refused else {
        return act(alloc, command, files, told, out, err);
    };
    let mut unprinted = Vec::new(alloc);
    match act(alloc, command, files, told, &mut unprinted, err) {
        DONE => print_failure(alloc, failure, err),
        status => status,
    }
}

/// Runs files, and adds why they failed to the explanation.
fn run_all<R: Files + Input + AllocGlobal + Threads + Wait + Sync, O: Write, E: Write>(
    rt: &R,
    order: Order<'_>,
    options: Options,
    files: Vec<(String, Option<Vec<u8>>)>,
    out: &mut O,
    err: &mut E,
) -> Result<Shown, AllocError> {
    let alloc = rt.alloc();
    let kept = if options.explain {
        copies_of(alloc, files.as_slice())?
    } else {
        Vec::new(alloc)
    };
    let ended = run_scripts(rt, order, files, out, err)?;
    Ok(Shown {
        status: ended.status,
        lines: causes_told(alloc, kept.as_slice(), ended.failed.as_slice())?,
        has_failed: !ended.failed.is_empty(),
    })
}

/// The status of a command, what there is to say of it, and whether something failed.
#[derive(Drop)]
struct Shown {
    status: u8,
    lines: String,
    has_failed: bool,
}

/// Does what is asked for. The answer is the status, and whether something failed.
fn carry_out<
    R: Files<File = File> + Input + Clock + AllocGlobal + Threads + Wait + Sync + Clone + Drop,
    O: Write,
    E: Write,
>(
    rt: &R,
    words: &Words,
    inputs: Inputs,
    told: &mut Told,
    out: &mut O,
    err: &mut E,
) -> Result<(u8, bool), AllocError> {
    match words.request {
        Request::Print(command) => {
            let status = act_on_all(rt.alloc(), command, inputs, told, out, err);
            Ok((status, told.explanation.has_refused_event))
        }
        Request::Run(order) => {
            let shown = run_all(rt, order, words.options, inputs.files, out, err)?;
            told.explanation.lines.push_str(shown.lines.as_str())?;
            Ok((shown.status, shown.has_failed))
        }
        Request::Serve(process) => {
            drop(inputs);
            Ok((processes::carry_out(rt, process, out, err), false))
        }
    }
}

/// Reads the files that the words name, acts, and explains what is refused or failed if the words ask for it.
fn act_on<
    R: Files<File = File> + Input + Clock + AllocGlobal + Threads + Wait + Sync + Clone + Drop,
    O: Write,
    E: Write,
>(rt: &R, words: &Words, out: &mut O, err: &mut E) -> Result<u8, AllocError> {
    let options = words.options;
    let mut told = Told::new(rt.alloc(), options.explain || options.strict);
    let inputs = read_files(rt, words, &mut told)?;
    let (status, has_failed) = carry_out(rt, words, inputs, &mut told, out, err)?;
    let lines = told.explanation.lines.as_str();
    Ok(print_explanation(options, lines, has_failed, status, err))
}

/// Does what the words say. The texts of usage faults and help are `clap`'s.
pub fn run<
    R: Files<File = File> + Input + Clock + AllocGlobal + Threads + Wait + Sync + Clone + Drop,
    O: Write,
    E: Write,
>(rt: &R, words: &[String], out: &mut O, err: &mut E) -> u8 {
    let words = match words_of(rt.alloc(), words) {
        Ok(words) => words,
        Err(error) => return print_usage(rt.alloc(), &error, out, err),
    };
    match act_on(rt, &words, out, err) {
        Ok(status) => status,
        Err(_) => print(err, "out of memory\n", MEMORY),
    }
}
