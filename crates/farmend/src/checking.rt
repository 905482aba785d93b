//! The check of what a run leaves.
ghost use Rattle.std.specs.Prelude.{◌≡◌, ◌≢◌, ◌≤◌, All, IfOk, OnOk, length, map, nat_eq};
ghost use Rattle.std.specs.List.{AllZip, IsDistinct};
ghost use Rattle.saverecord.specs.Logs.{Holds};
ghost use Rattle.saverecord.specs.Texts.{whole_alone};
ghost use Rattle.executions.specs.Calls.{Grew};
ghost use Rattle.executions.specs.Shown.{shown};
ghost use Rattle.executions.specs.History.{farm_of};
ghost use Rattle.executions.specs.Counts.{commits_of};
ghost use Rattle.reasons.specs.Answers.{AreAnswered};
ghost use Rattle.farmend.specs.Receipts.{StandsOn, tickets_of};
ghost use Rattle.executions.specs.Replays.{farm_after, commits_after};
ghost use Rattle.farmend.specs.Standing.{IsStanding};

use super::end::{HandedBack, RunEnd, Standing};
use super::hired::Hired;
use super::news::news_of;
use super::receipts::{all_differ, all_stand};
use super::refusal::EndRefusal;
use executions::{Board, Call, Receipt, World};
use farm_base::NodeId;
use jobs::Answer;
use reasons::are_answered;
use saverecord::RecordRefusal;
use schedule::Setup;
use solverkeys::Keyed;
use std::alloc::Global;

/// The record of a farm's coordinator, whole.
fn saved_of(alloc: Global, world: &World) -> Result<Vec<u8>, EndRefusal>
    ensures { IfOk result (λ saved. Holds (whole_alone saved.items) (shown world.now).saved) }
{
    let coordinator = world.coordinator();
    coordinator.is_kept();
    match coordinator.keeper().log().fold(alloc) {
        Ok(saved) => Ok(saved),
        Err(RecordRefusal::OutOfMemory) => Err(EndRefusal::OutOfMemory),
        Err(_) => Err(EndRefusal::Disagrees),
    }
}

/// Whether receipts are of a board's commits: on the lines, each under a ticket of its own.
fn stand(alloc: Global, board: &Board, receipts: &[Receipt]) -> Result<(), EndRefusal>
    ensures stand { OnOk result (All (StandsOn (farm_of board.now)) receipts.now) }
    ensures differ { OnOk result (IsDistinct nat_eq (tickets_of receipts.now)) }
{
    if !all_stand(board.world(), receipts) || !all_differ(alloc, receipts)? {
        return Err(EndRefusal::Disagrees);
    }
    Ok(())
}

/// Whether the receipts are those of a board's commits, and as many.
fn settle(alloc: Global, board: &Board, receipts: &[Receipt]) -> Result<(), EndRefusal>
    ensures stand { OnOk result (All (StandsOn (farm_of board.now)) receipts.now) }
    ensures differ { OnOk result (IsDistinct nat_eq (tickets_of receipts.now)) }
    ensures count { OnOk result (length receipts.now ≡ commits_of board.now) }
{
    if receipts.len() as u64 != board.commits() {
        return Err(EndRefusal::Disagrees);
    }
    stand(alloc, board, receipts)
}

/// Whether the receipts are of a board's commits, of which some may have none.
fn settle_some(alloc: Global, board: &Board, receipts: &[Receipt]) -> Result<(), EndRefusal>
    ensures stand { OnOk result (All (StandsOn (farm_of board.now)) receipts.now) }
    ensures differ { OnOk result (IsDistinct nat_eq (tickets_of receipts.now)) }
    ensures count { OnOk result (length receipts.now ≤ commits_of board.now) }
{
    if receipts.len() as u64 > board.commits() {
        return Err(EndRefusal::Disagrees);
    }
    stand(alloc, board, receipts)
}

/// Whether each executor's calls begin with those that it had.
fn compare(alloc: Global, hired: &[Hired], ends: &[&[Call]]) -> Result<(), EndRefusal>
    ensures { OnOk result (AllZip Grew (map (λ each. each.had.items) hired.now) (map (λ calls. calls.now) ends.now)) }
{
    let _news = news_of(alloc, hired, ends)?;
    Ok(())
}

/// Whether each executor's calls begin with those that it had, and the new ones are the reasons of the answers.
fn account(
    alloc: Global,
    world: &World,
    jobs: &[(NodeId, Keyed)],
    hired: &[Hired],
    ends: &[&[Call]],
    answers: &[Answer],
) -> Result<(), EndRefusal>
    ensures calls { OnOk result (AllZip Grew (map (λ each. each.had.items) hired.now) (map (λ calls. calls.now) ends.now)) }
    ensures answers { OnOk result (AreAnswered (shown world.now) (map (λ each. each.node) hired.now) (map (λ each. each.had.items) hired.now) (map (λ calls. calls.now) ends.now) jobs.now answers.now) }
{
    let news = news_of(alloc, hired, ends)?;
    if !are_answered(alloc, world, news.as_slice(), jobs, answers)? {
        return Err(EndRefusal::Disagrees);
    }
    Ok(())
}

/// Whether all that was handed back agrees. It gives the bytes of the record.
fn judge(
    alloc: Global,
    jobs: &[(NodeId, Keyed)],
    hired: &[Hired],
    ends: &[&[Call]],
    back: &HandedBack,
) -> Result<Vec<u8>, EndRefusal>
    ensures saved { IfOk result (λ saved. Holds (whole_alone saved.items) (farm_of back.now.board).saved) }
    ensures stand { OnOk result (All (StandsOn (farm_of back.now.board)) back.now.receipts.items) }
    ensures differ { OnOk result (IsDistinct nat_eq (tickets_of back.now.receipts.items)) }
    ensures count { OnOk result (length back.now.receipts.items ≡ commits_of back.now.board) }
    ensures calls { OnOk result (AllZip Grew (map (λ each. each.had.items) hired.now) (map (λ calls. calls.now) ends.now)) }
    ensures answers { OnOk result (AreAnswered (farm_of back.now.board) (map (λ each. each.node) hired.now) (map (λ each. each.had.items) hired.now) (map (λ calls. calls.now) ends.now) jobs.now back.now.answers.items) }
{
    let world = back.board.world();
    settle(alloc, &back.board, &back.receipts)?;
    account(alloc, world, jobs, hired, ends, &back.answers)?;
    let saved = saved_of(alloc, world)?;
    Ok(saved)
}

/// Whether a board is of this setup.
fn agree(board: &Board, setup: Setup) -> Result<(), EndRefusal>
    ensures { OnOk result (board.now.setup.nodes ≡ setup.nodes) }
{
    if board.setup().nodes != setup.nodes {
        return Err(EndRefusal::Disagrees);
    }
    Ok(())
}

/// Checks what the threads of a run of these jobs handed back, by executors that were hired so and have these calls at the
/// end. Agreed, it is what the run leaves. `Disagrees` where a clause doesn't hold, or the board is of another setup; `OutOfMemory`.
pub fn check(
    alloc: Global,
    setup: Setup,
    jobs: &[(NodeId, Keyed)],
    hired: &[Hired],
    ends: &[&[Call]],
    back: HandedBack,
) -> Result<RunEnd, EndRefusal>
    // The replay of the setup and the schedule has the bytes as its record, and these commits.
    ensures saved { IfOk result (λ end. Holds (whole_alone end.saved.items) (farm_after setup end.schedule.items).saved) }
    ensures commits { IfOk result (λ end. end.commits ≡ commits_after setup end.schedule.items) }
    // The receipts are on its lines, each under a ticket of its own, and as many as the commits.
    ensures receipts { IfOk result (λ end. All (StandsOn (farm_after setup end.schedule.items)) end.receipts.items) }
    ensures tickets { IfOk result (λ end. IsDistinct nat_eq (tickets_of end.receipts.items)) }
    ensures count { IfOk result (λ end. length end.receipts.items ≡ end.commits) }
    // The executors' calls begin with those that they had, in order.
    ensures calls { IfOk result (λ end. AllZip Grew (map (λ each. each.had.items) hired.now) (map (λ calls. calls.now) ends.now)) }
    // There is one answer a job, each with its reason in the new calls on the job's node; none of them waits.
    ensures answers { IfOk result (λ end. AreAnswered (farm_after setup end.schedule.items) (map (λ each. each.node) hired.now) (map (λ each. each.had.items) hired.now) (map (λ calls. calls.now) ends.now) jobs.now end.answers.items) }
    ensures answered { IfOk result (λ end. length end.answers.items ≡ length jobs.now) }
    ensures settled { IfOk result (λ end. All (λ answer. answer ≢ Answer.Waiting) end.answers.items) }
    // Nothing of what was handed back is left out.
    ensures same { IfOk result (λ end. end.answers.items ≡ back.answers.items) }
    ensures whole { IfOk result (λ end. (end.schedule.items ≡ back.board.events) × (end.receipts.items ≡ back.receipts.items)) }
{
    agree(&back.board, setup)?;
    let saved = judge(alloc, jobs, hired, ends, &back)?;
    let HandedBack {
        board,
        receipts,
        answers,
    } = back;
    let commits = board.commits();
    let (_, schedule, _) = board.into_parts();
    Ok(RunEnd {
        answers,
        commits,
        receipts,
        saved,
        schedule,
    })
}

/// Checks what stands of a run that a fault ended: its board, the receipts that were seen, and the calls of executors that were hired
/// so. `Disagrees` where a clause doesn't hold, or the board is of another setup; `OutOfMemory`.
pub fn check_standing(
    alloc: Global,
    setup: Setup,
    hired: &[Hired],
    ends: &[&[Call]],
    board: Board,
    receipts: Vec<Receipt>,
) -> Result<Standing, EndRefusal>
    // What is handed back says what the schedule's replay does.
    ensures stands { IfOk result (λ left. IsStanding setup left.schedule.items left.saved.items left.commits left.receipts.items) }
    ensures whole { IfOk result (λ left. (left.schedule.items ≡ board.events) × (left.receipts.items ≡ receipts.items)) }
    // The executors' calls begin with those that they had, in order.
    ensures calls { OnOk result (AllZip Grew (map (λ each. each.had.items) hired.now) (map (λ calls. calls.now) ends.now)) }
{
    agree(&board, setup)?;
    settle_some(alloc, &board, receipts.as_slice())?;
    compare(alloc, hired, ends)?;
    let saved = saved_of(alloc, board.world())?;
    let commits = board.commits();
    let (_, schedule, _) = board.into_parts();
    Ok(Standing {
        commits,
        receipts,
        saved,
        schedule,
    })
}
