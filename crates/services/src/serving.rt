//! The loop of a process: it reads whole lines, and answers each.
ghost use Rattle.std.specs.Prelude.{◌≡◌, ℕ, ◌<◌, List, [], Result, OnOk, IfSome, length, vec_len};
ghost use Rattle.std.specs.Io.{ReadsAtMost};
ghost use Rattle.std.specs.Io.KnownBytes.{Appends, ReadConsumes};
ghost use Rattle.std.specs.Vec.{vec_capacity};
ghost use Rattle.services.specs.declared.lost.Lost.{Lost};
ghost use Rattle.services.specs.declared.settled.Settled.{Settled};
ghost use Rattle.services.specs.Buffers.{HasRead};
ghost use Rattle.services.specs.Lines.{lines_behind};
ghost use Rattle.services.specs.Served.{Serves, Takes, Writes, joined, refusals, restart_line};

use super::answer::Answer;
use super::line::LineBuffer;
use super::lost::Lost;
use super::settled::Settled;
use events::{CoordRefusal, EventRefusal};
use farm_base::Items;
use schedule::refusal_name;
use std::alloc::Global;
use std::io::{self, ErrorKind, Read, Write};

/// How many bytes are read at once. The lines that they end are answered together.
const CHUNK: usize = 65536;

/// How many lines are answered together, at most.
const TOGETHER: usize = 256;

/// What answers lines, one after the other.
pub trait Step {
    /// The state before, the line or why it was lost, the answer, and the state after.
    ghost steps: { Self → Result (List ℕ) Lost → List ℕ → Self → Type 0 };

    /// The state before, whether what was answered lasts, and the state after.
    ghost settles: { Self → Settled → Self → Type 0 };

    /// Answers a line, which stands here without its end. Where memory ran out for the answer, it is the same for all lines.
    fn step(&mut self, alloc: Global, line: Result<Items<u8>, Lost>) -> Answer
        ensures { steps self.old line result self.new };

    /// Makes last what was answered since the last call. Only then are the answers written.
    fn settle(&mut self, alloc: Global) -> Settled
        ensures { settles self.old result self.new };
}

/// Writes the answers.
fn write_answers<W: Write>(writer: &mut W, answers: &[Answer]) -> io::Result<()>
    ensures { OnOk result (Appends (W.contents writer.old) (W.contents writer.new) (joined answers.now)) }
{
    for answer in answers {
        writer.write_all(answer.text().as_bytes())?;
    }
    Ok(())
}

/// Refuses as many lines.
fn write_refusals<W: Write>(writer: &mut W, answers: &[Answer]) -> io::Result<()>
    ensures { OnOk result (Appends (W.contents writer.old) (W.contents writer.new) (joined (refusals answers.now))) }
{
    for _answer in answers {
        writer.write_all(b"= refused SaveFault\n")?;
    }
    Ok(())
}

/// Writes what came of a restart.
fn write_restart<W: Write>(writer: &mut W, restart: Result<(), CoordRefusal>) -> io::Result<()>
    ensures { OnOk result (Appends (W.contents writer.old) (W.contents writer.new) (restart_line restart)) }
{
    let Err(refusal) = restart else {
        return writer.write_all(b": restarted\n");
    };
    writer.write_all(b": down ")?;
    writer.write_all(refusal_name(EventRefusal::Coord(refusal)).as_bytes())?;
    writer.write_all(b"\n")
}

/// Makes last what was answered, and then writes it; where it can't, each line is refused.
fn settle<W: Write, S: Step>(
    alloc: Global,
    writer: &mut W,
    step: &mut S,
    answers: &mut Vec<Answer>,
) -> io::Result<()>
    ensures written { OnOk result (Writes S.settles answers.old.items step.old step.new (W.contents writer.old) (W.contents writer.new)) }
    ensures empty { OnOk result (answers.new.items ≡ []) }
    ensures none { OnOk result (vec_len answers.new ≡ 0) }
    ensures capacity { vec_capacity answers.new ≡ vec_capacity answers.old }
{
    match step.settle(alloc) {
        Settled::Lasts => write_answers(writer, answers.as_slice())?,
        Settled::Failed(restart) => {
            write_restart(writer, restart)?;
            write_refusals(writer, answers.as_slice())?;
        }
    }
    answers.clear();
    writer.flush()
}

/// Whether no more lines are to be answered before these answers are written: as many were gathered, or the last is long.
fn are_enough(answers: &[Answer]) -> bool {
    let Some(last) = answers.last() else {
        return false;
    };
    answers.len() >= TOGETHER || last.text().len() >= CHUNK
}

/// Answers the lines that these bytes end, and writes the answers.
fn take<W: Write, S: Step>(
    alloc: Global,
    writer: &mut W,
    step: &mut S,
    buffer: &mut LineBuffer,
    answers: &mut Vec<Answer>,
    bytes: &[u8],
) -> io::Result<()>
    requires limit { 0 < buffer.old.limit }
    requires empty { answers.old.items ≡ [] }
    requires room { vec_len answers.old < vec_capacity answers.old }
    ensures limit { buffer.new.limit ≡ buffer.old.limit }
    ensures taken { OnOk result ((front : List ℕ) → HasRead buffer.old front → Takes S.steps S.settles buffer.old.limit bytes.now step.old step.new buffer.new
        (W.contents writer.old) (W.contents writer.new) front) }
    ensures empty { OnOk result (answers.new.items ≡ []) }
    ensures room { OnOk result (vec_len answers.new < vec_capacity answers.new) }
{
    for byte in bytes {
        let Some(line) = buffer.push(alloc, *byte) else {
            continue;
        };
        answers.push_reserved(step.step(alloc, line));
        if are_enough(answers.as_slice()) || answers.len() >= answers.capacity() {
            settle(alloc, writer, step, answers)?;
        }
    }
    if !answers.is_empty() {
        settle(alloc, writer, step, answers)?;
    }
    Ok(())
}

/// Reads some bytes into the front of these: how many.
fn read_some<R: Read>(reader: &mut R, chunk: &mut Vec<u8>) -> io::Result<usize>
    ensures len { length chunk.new.items ≡ length chunk.old.items }
    ensures bound { ReadsAtMost result chunk.new.items }
    ensures bytes { ReadConsumes (R.remaining reader.old) (R.remaining reader.new) result chunk.new.items }
{
    reader.read(chunk.as_mut_slice())
}

/// Writes the greeting, and then the answer to each whole line that is read, up to the end of what is read. Lines that come
/// together are answered together: what the answers say is made to last once, and then all are written. A line of more bytes than
/// the limit, its end among them, is skipped in bounded memory; bytes behind the last end are no line.
pub fn serve<R: Read + Drop, W: Write, S: Step>(
    alloc: Global,
    mut reader: R,
    writer: &mut W,
    step: &mut S,
    limit: usize,
    greeting: &[u8],
) -> io::Result<()>
    requires { 0 < limit }
    ensures { OnOk result (IfSome (R.remaining reader) (λ text.
        Serves S.steps S.settles limit greeting.now (lines_behind [] text) step.old step.new (W.contents writer.old) (W.contents writer.new))) }
{
    let mut buffer = LineBuffer::new(alloc, limit);
    let mut answers = Vec::with_capacity(alloc, TOGETHER)?;
    let mut chunk = vec![in alloc; 0; CHUNK]?;
    writer.write_all(greeting)?;
    writer.flush()?;
    for _ in 0..u64::MAX {
        match read_some(&mut reader, &mut chunk) {
            Ok(0) => return Ok(()),
            Ok(read) => {
                let bytes = &chunk.as_slice()[..read];
                take(alloc, writer, step, &mut buffer, &mut answers, bytes)?;
            }
            Err(error) => {
                if error.kind() != ErrorKind::Interrupted {
                    return Err(error);
                }
            }
        }
    }
    Err(ErrorKind::Other.into())
}
