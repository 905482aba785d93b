//! The marks of events.
ghost use Rattle.std.specs.Prelude.{◌≡◌, ◌+◌, ◌<◌, ◌^◌, ◌++◌, OnOk, IfOk, length};
ghost use Rattle.std.specs.Option.{option_copied};
ghost use Rattle.std.specs.List.{flat_map};
ghost use Rattle.draw.specs.Marks.{begins_life, life_mark, end_of, end_in, lease_mark, run_marks, arrow_mark, arrow_marks, lost_mark, sign_of, sign_marks, label_marks, row_marks, all_of, marks_of};

use super::frame::{Done, Frame, Held, Sent};
use super::mark::{End, Mark, Sign};
use super::rows::{column_of, first_row, has_line};
use super::scene::Scene;
use super::sought::{Sought, is_fault, is_live, is_start};
use std::alloc::{AllocError, Global};

/// A kind of marks: each covers those before it.
#[derive(Clone, Copy)]
pub enum Pass {
    Labels,
    Lives,
    Leases,
    Runs,
    Lost,
    Arrows,
    Signs,
}

/// Whether a life of this lifeline begins.
fn begins_life(row: usize, line: u32, frame: &Frame) -> bool
    ensures { result ≡ begins_life row line frame.now }
{
    if row == 0 {
        !(line == 0 && is_fault(frame.done))
    } else {
        frame.actor == line && is_start(frame.done)
    }
}

/// Adds the lives that begin.
fn push_lives(
    marks: &mut Vec<Mark>,
    lines: &[u32],
    row: usize,
    frame: &Frame,
    rest: &[Frame],
) -> Result<(), AllocError>
    requires { row + 1 + length rest.now < 2 ^ 64 }
    ensures { OnOk result (marks.new.items ≡ marks.old.items ++ flat_map (life_mark lines.now row frame.now rest.now) lines.now) }
{
    for line in lines {
        if begins_life(row, *line, frame) {
            let column = column_of(lines, *line);
            let to = first_row(Sought::Stopped(*line), row + 1, rest);
            marks.push(Mark::Life {
                column,
                from: row,
                to,
            })?;
        }
    }
    Ok(())
}

/// How a lease of this ticket ends by an event after which it is live no more.
fn end_of(ticket: u64, done: Done) -> End
    ensures { result ≡ end_of ticket done }
{
    match done {
        Done::Committed(ended) if ended == ticket => End::Committed,
        Done::Released(ended) if ended == ticket => End::Released,
        Done::Withdrawn(ended) if ended == ticket => End::Withdrawn,
        Done::Started => End::Restarted,
        _ => End::Died,
    }
}

/// How it ends in the first of these frames after which it is live no more.
fn end_in(ticket: u64, frames: &[Frame]) -> End
    ensures { result ≡ end_in ticket frames.now }
{
    for frame in frames {
        if !is_live(ticket, frame.live.as_slice()) {
            return end_of(ticket, frame.done);
        }
    }
    End::Open
}

/// Adds the leases that were not live before.
fn push_leases(
    marks: &mut Vec<Mark>,
    lines: &[u32],
    before: &[Held],
    row: usize,
    frame: &Frame,
    rest: &[Frame],
) -> Result<(), AllocError>
    requires { row + 1 + length rest.now < 2 ^ 64 }
    ensures { OnOk result (marks.new.items ≡ marks.old.items ++ flat_map (lease_mark lines.now before.now row rest.now) frame.now.live) }
{
    let live = frame.live.as_slice();
    for held in live {
        if is_live(held.ticket, before) || !has_line(lines, held.node) {
            continue;
        }
        marks.push(Mark::Lease {
            column: column_of(lines, held.node),
            ticket: held.ticket,
            from: row,
            to: first_row(Sought::Ended(held.ticket), row + 1, rest),
            end: end_in(held.ticket, rest),
        })?;
    }
    Ok(())
}

/// Adds the execution that begins.
fn push_run(
    marks: &mut Vec<Mark>,
    lines: &[u32],
    row: usize,
    frame: &Frame,
    rest: &[Frame],
) -> Result<(), AllocError>
    requires { row + 1 + length rest.now < 2 ^ 64 }
    ensures { OnOk result (marks.new.items ≡ marks.old.items ++ run_marks lines.now row frame.now frame.now.done rest.now) }
{
    if let Done::Begun(ticket) = frame.done {
        marks.push(Mark::Run {
            column: column_of(lines, frame.actor),
            ticket,
            from: row,
            to: first_row(Sought::RunOver(frame.actor, ticket), row + 1, rest),
        })?;
    }
    Ok(())
}

/// The arrow of a message that the frame takes.
fn arrow_mark(
    lines: &[u32],
    row: usize,
    frame: &Frame,
    number: u64,
    sent_row: usize,
    sender: Option<&Frame>,
) -> Mark
    ensures { result ≡ arrow_mark lines.now row frame.now number sent_row (option_copied sender.entry) }
{
    match sender {
        None => Mark::Arrival {
            column: column_of(lines, frame.actor),
            row,
            number,
        },
        Some(sender) => Mark::Arrow {
            from_column: column_of(lines, sender.actor),
            from: sent_row,
            column: column_of(lines, frame.actor),
            to: row,
            number,
        },
    }
}

/// Adds the message that the frame takes.
fn push_arrow(
    marks: &mut Vec<Mark>,
    scene: &Scene,
    row: usize,
    frame: &Frame,
) -> Result<(), AllocError>
    requires { length scene.now.frames < 2 ^ 64 }
    ensures { OnOk result (marks.new.items ≡ marks.old.items ++ arrow_marks scene.now row frame.now frame.now.taken) }
{
    let Some(number) = frame.taken else {
        return Ok(());
    };
    let sent_row = first_row(Sought::Sends(number), 0, scene.frames.as_slice());
    let sender = scene.frames.get(sent_row);
    let lines = scene.lines.as_slice();
    marks.push(arrow_mark(lines, row, frame, number, sent_row, sender))?;
    Ok(())
}

/// Adds the messages that no frame takes.
fn push_lost(
    marks: &mut Vec<Mark>,
    scene: &Scene,
    row: usize,
    frame: &Frame,
) -> Result<(), AllocError>
    requires { length scene.now.frames < 2 ^ 64 }
    ensures { OnOk result (marks.new.items ≡ marks.old.items ++ flat_map (lost_mark scene.now row frame.now) frame.now.sent) }
{
    let frames = scene.frames.as_slice();
    let lines = scene.lines.as_slice();
    let sent = frame.sent.as_slice();
    for message in sent {
        if first_row(Sought::Takes(message.number), 0, frames) < frames.len() {
            continue;
        }
        marks.push(Mark::Lost {
            column: column_of(lines, frame.actor),
            to_column: column_of(lines, message.to),
            row,
            number: message.number,
        })?;
    }
    Ok(())
}

fn sign_of(done: Done) -> Sign
    ensures { result ≡ sign_of done }
{
    match done {
        Done::Refused => Sign::Refused,
        Done::SaveFailed => Sign::Failed,
        Done::Armed => Sign::Armed,
        Done::Started => Sign::Started,
        _ => Sign::Plain,
    }
}

/// Adds what happened.
fn push_sign(
    marks: &mut Vec<Mark>,
    lines: &[u32],
    row: usize,
    frame: &Frame,
) -> Result<(), AllocError>
    ensures { OnOk result (marks.new.items ≡ marks.old.items ++ sign_marks lines.now row frame.now) }
{
    if row == 0 {
        return Ok(());
    }
    marks.push(Mark::Event {
        column: column_of(lines, frame.actor),
        row,
        sign: sign_of(frame.done),
    })?;
    Ok(())
}

/// Adds the words beside a row.
fn push_label(marks: &mut Vec<Mark>, lines: &[u32], row: usize) -> Result<(), AllocError>
    ensures { OnOk result (marks.new.items ≡ marks.old.items ++ label_marks lines.now row) }
{
    if row == 0 {
        return Ok(());
    }
    let column = lines.len();
    marks.push(Mark::Label { column, row })?;
    Ok(())
}

/// A row, what was held before it, and the rows after it.
#[derive(Clone, Copy)]
struct Here<'a> {
    before: &'a [Held],
    row: usize,
    frame: &'a Frame,
    rest: &'a [Frame],
}

/// Adds the marks of one kind that begin at a row.
fn push_row(
    marks: &mut Vec<Mark>,
    pass: Pass,
    scene: &Scene,
    here: Here<'_>,
) -> Result<(), AllocError>
    requires row { here.row + 1 + length here.rest.now < 2 ^ 64 }
    requires frames { length scene.now.frames < 2 ^ 64 }
    ensures { OnOk result (marks.new.items ≡ marks.old.items ++ row_marks pass scene.now here.entry.before.now here.entry.row here.entry.frame.now here.entry.rest.now) }
{
    let lines = scene.lines.as_slice();
    let Here {
        before,
        row,
        frame,
        rest,
    } = here;
    match pass {
        Pass::Labels => push_label(marks, lines, row),
        Pass::Lives => push_lives(marks, lines, row, frame, rest),
        Pass::Leases => push_leases(marks, lines, before, row, frame, rest),
        Pass::Runs => push_run(marks, lines, row, frame, rest),
        Pass::Lost => push_lost(marks, scene, row, frame),
        Pass::Arrows => push_arrow(marks, scene, row, frame),
        Pass::Signs => push_sign(marks, lines, row, frame),
    }
}

/// Adds all marks of one kind.
fn push_pass(marks: &mut Vec<Mark>, pass: Pass, scene: &Scene) -> Result<(), AllocError>
    ensures { OnOk result (marks.new.items ≡ marks.old.items ++ all_of pass scene.now) }
{
    let mut before: &[Held] = &[];
    let mut row = 0;
    let mut left = scene.frames.as_slice();
    'rows: while let [frame, rest @ ..] = left {
        let here = Here {
            before,
            row,
            frame,
            rest,
        };
        push_row(marks, pass, scene, here)?;
        before = frame.live.as_slice();
        left = rest;
        row += 1;
    }
    Ok(())
}

/// All marks, what covers others behind them.
pub(crate) fn marks_of(alloc: Global, scene: &Scene) -> Result<Vec<Mark>, AllocError>
    ensures { IfOk result (λ marks. marks.items ≡ marks_of scene.now) }
{
    let mut marks = Vec::new(alloc);
    push_pass(&mut marks, Pass::Labels, scene)?;
    push_pass(&mut marks, Pass::Lives, scene)?;
    push_pass(&mut marks, Pass::Leases, scene)?;
    push_pass(&mut marks, Pass::Runs, scene)?;
    push_pass(&mut marks, Pass::Lost, scene)?;
    push_pass(&mut marks, Pass::Arrows, scene)?;
    push_pass(&mut marks, Pass::Signs, scene)?;
    Ok(marks)
}
