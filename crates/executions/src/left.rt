//! What an execution leaves in the slots of its lease.
ghost use Rattle.std.specs.Prelude.{◌≡◌, true, false, IfOk, Err};
ghost use Rattle.names.specs.Slots.{SlotParts};
ghost use Rattle.slotfolders.specs.Seen.{folder_seen};
ghost use Rattle.executions.specs.Calls.{IsAnswer};
ghost use Rattle.executions.specs.Left.{is_fit, news_of};

use super::call::ExecOutcome;
use farm_base::{GrantedSlot, Left, Want};
use slotfolders::{RunRefusal, Seen, left_by};
use std::alloc::Global;

/// What an outcome leaves in the slots of a lease.
pub(crate) fn news_of(
    alloc: Global,
    seen: &Seen,
    wants: &[Want],
    slots: &[GrantedSlot],
    outcome: &ExecOutcome,
) -> Result<Vec<Left>, RunRefusal>
    ensures answer { IfOk result (λ v. IsAnswer outcome.now) }
    ensures fit { IfOk result (λ v. is_fit (folder_seen seen.now.leased seen.now.shared) wants.now outcome.now ≡ true) }
    ensures news { IfOk result (λ v. v.items ≡ news_of (folder_seen seen.now.leased seen.now.shared) slots.now outcome.now) }
    ensures bad { result ≡ Err RunRefusal.BadEdits → is_fit (folder_seen seen.now.leased seen.now.shared) wants.now outcome.now ≡ false }
    ensures contents { (slot : SlotParts) → result ≡ Err (RunRefusal.BadContents slot) → ⊥ }
{
    match outcome {
        ExecOutcome::Done { outputs: _, edits } => {
            left_by(alloc, seen, wants, slots, edits.as_slice())
        }
        ExecOutcome::Failed(_) => Ok(Vec::new(alloc)),
        ExecOutcome::OutOfMemory => Err(RunRefusal::OutOfMemory),
    }
}
