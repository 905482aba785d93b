//! With which status a program ends, and what it prints then.
ghost use Rattle.std.specs.Prelude.{◌≡◌, ◌≢◌};
ghost use Rattle.std.specs.Io.KnownBytes.{Appends};

use std::alloc::Global;
use std::env;
use std::io::{self, Write};
use std::rt::Env;

/// The answer was printed.
pub const DONE: u8 = 0;
/// An input was refused, or can't be read.
pub const REFUSED: u8 = 1;
/// The words are not a command.
pub const USAGE: u8 = 2;
/// Memory ran out.
pub const MEMORY: u8 = 3;
/// The answer could not be written.
pub const FAULT: u8 = 4;

/// Writes a text, and returns the status, or `FAULT` if it can't be written.
pub fn print<W: Write>(writer: &mut W, text: &str, status: u8) -> u8
    ensures status { result ≢ FAULT → result ≡ status }
    ensures printed { result ≢ FAULT → Appends (W.contents writer.old) (W.contents writer.new) text.now }
{
    match writer.write_all(text.as_bytes()) {
        Ok(()) => match writer.flush() {
            Ok(()) => status,
            Err(_) => FAULT,
        },
        Err(_) => FAULT,
    }
}

/// The words after the program's name.
pub fn program_words<R: Env + AllocGlobal>(rt: &R) -> io::Result<Vec<String>> {
    let mut words = Vec::new(rt.alloc());
    for word in env::args(rt)?.skip(1) {
        words.push(word)?;
    }
    Ok(words)
}

/// Says why there are no words: memory ran out, or one of them is not UTF-8.
pub fn print_no_words<E: Write>(error: &io::Error, err: &mut E) -> u8
    ensures { result ≢ DONE }
{
    if matches!(error.kind(), io::ErrorKind::OutOfMemory) {
        print(err, "out of memory\n", MEMORY)
    } else {
        print(err, "error: a word that is not UTF-8\n", USAGE)
    }
}

/// Prints what `clap` says in place of an answer: help that was asked for, or why the words are no command.
pub fn print_usage<O: Write, E: Write>(
    alloc: Global,
    error: &clap::Error,
    out: &mut O,
    err: &mut E,
) -> u8 {
    let Ok(text) = error.to_string(alloc) else {
        return print(err, "out of memory\n", MEMORY);
    };
    if matches!(error.kind(), clap::error::ErrorKind::OutOfMemory) {
        print(err, "out of memory\n", MEMORY)
    } else if error.use_stderr() {
        print(err, text.as_str(), USAGE)
    } else {
        print(out, text.as_str(), DONE)
    }
}
