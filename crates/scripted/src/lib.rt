//! The executor of `run`: an execution does what a few words of its command say. Tests say what it does.
#![tactic(auto)]

ghost use Rattle.std.specs.Prelude.{⊤, ◌≡◌, []};

use executions::{Call, ExecOutcome, ExecTask, Executor};
use folders::Edit;
use names::{Copied, Digest, FolderName, Items, Key, Text};
use opsproto::{ExecOp, Mount};
use sha2::Sha256;
use std::alloc::{AllocError, Global};

/// The edits of an execution, by their folders, or the status with which it fails.
type Script = Result<Vec<(FolderName, Items<Edit>)>, i32>;

/// An executor whose commands are scripts: `put DEST PATH TEXT` puts a file into the first cache mount at DEST, `remove
/// DEST PATH` removes one, and `fail` fails with status 1. Where no cache mount is at DEST it fails with status 2. Any
/// other command changes nothing.
#[derive(Drop)]
pub struct Scripted {
    alloc: Global,
    calls: Vec<Call>,
}

impl Scripted {
    /// An executor that has carried out nothing.
    pub fn new(alloc: Global) -> Self
        ensures { result.calls.items ≡ [] }
    {
        Scripted {
            alloc,
            calls: Vec::new(alloc),
        }
    }
}

/// The folder of the first cache mount at this place of the file system.
fn folder_at<'a>(task: &'a ExecTask, mounts: &[Mount], dest: &Text) -> Option<&'a FolderName> {
    for view in task.views() {
        if let Some(mount) = mounts.get(view.mount) {
            if mount.dest.as_str() == dest.as_str() {
                return Some(&view.folder);
            }
        }
    }
    None
}

/// The one edit of the folder at this place.
fn edit_at(
    alloc: Global,
    task: &ExecTask,
    mounts: &[Mount],
    dest: &Text,
    edit: Edit,
) -> Result<Script, AllocError> {
    let Some(folder) = folder_at(task, mounts, dest) else {
        return Ok(Err(2));
    };
    let edits = Items::new(vec![in alloc; edit]?);
    Ok(Ok(vec![in alloc; (folder.copy(alloc)?, edits)]?))
}

/// What the command's words say.
fn script_of(alloc: Global, task: &ExecTask, exec: &ExecOp) -> Result<Script, AllocError> {
    let Some(meta) = &exec.meta else {
        return Ok(Ok(Vec::new(alloc)));
    };
    let mounts = exec.mounts.as_slice();
    match meta.args.as_slice() {
        [word, dest, path, text] if word.as_str() == "put" => {
            let bytes = Vec::from_slice(alloc, text.as_str().as_bytes())?;
            let edit = Edit::Put(path.copy(alloc)?, Items::new(bytes));
            edit_at(alloc, task, mounts, dest, edit)
        }
        [word, dest, path] if word.as_str() == "remove" => {
            edit_at(alloc, task, mounts, dest, Edit::Remove(path.copy(alloc)?))
        }
        [word] if word.as_str() == "fail" => Ok(Err(1)),
        _ => Ok(Ok(Vec::new(alloc))),
    }
}

/// The outputs of an op that runs no command.
const OTHER_OUTPUTS: u64 = 16;

/// The greatest index of an output that an execution gives.
const LAST_OUTPUT: u64 = 63;

/// The number of outputs: one more than the greatest that a mount names.
fn outputs_of(mounts: &[Mount]) -> u64 {
    let mut number: u64 = 0;
    for mount in mounts {
        if let Ok(index) = u64::try_from(mount.output) {
            number = number.max(index.min(LAST_OUTPUT).saturating_add(1));
        }
    }
    number
}

/// The output of this index: the SHA-256 of the key and the index.
fn output(alloc: Global, key: Key, index: u64) -> Result<Digest, AllocError> {
    let mut bytes = Vec::from_slice(alloc, key.0.0.as_slice())?;
    bytes.extend_from_slice(index.to_be_bytes().as_slice())?;
    Ok(Digest(<Sha256 as sha2::Digest>::digest(bytes.as_slice())))
}

/// The outputs of a key.
fn outputs(alloc: Global, key: Key, number: u64) -> Result<Vec<Digest>, AllocError> {
    let mut outputs = Vec::new(alloc);
    for index in 0..number {
        outputs.push(output(alloc, key, index)?)?;
    }
    Ok(outputs)
}

/// Carries out a task: its outputs and edits, or the status with which it fails.
fn carried_out(
    alloc: Global,
    task: &ExecTask,
) -> Result<Result<(Vec<Digest>, Vec<(FolderName, Items<Edit>)>), i32>, AllocError> {
    let Some(exec) = task.exec() else {
        let outputs = outputs(alloc, task.key(), OTHER_OUTPUTS)?;
        return Ok(Ok((outputs, Vec::new(alloc))));
    };
    match script_of(alloc, task, exec)? {
        Ok(edits) => {
            let number = outputs_of(exec.mounts.as_slice());
            Ok(Ok((outputs(alloc, task.key(), number)?, edits)))
        }
        Err(status) => Ok(Err(status)),
    }
}

impl Executor for Scripted {
    ghost history = { λ s. s.calls.items };

    ghost answers = { λ s task outcome. ⊤ };

    fn run(&mut self, task: &ExecTask) -> ExecOutcome {
        let key = task.key();
        let Ok(result) = carried_out(self.alloc, task) else {
            return ExecOutcome::OutOfMemory;
        };
        if self.calls.reserve(1).is_err() {
            return ExecOutcome::OutOfMemory;
        }
        match result {
            Ok((outputs, edits)) => {
                let Ok(copy) = Vec::from_slice(self.alloc, outputs.as_slice()) else {
                    return ExecOutcome::OutOfMemory;
                };
                self.calls.push_reserved(Call {
                    key,
                    result: Ok(Items::new(copy)),
                });
                ExecOutcome::Done {
                    outputs: Items::new(outputs),
                    edits: Items::new(edits),
                }
            }
            Err(status) => {
                self.calls.push_reserved(Call {
                    key,
                    result: Err(status),
                });
                ExecOutcome::Failed(status)
            }
        }
    }

    fn calls(&self) -> &[Call] {
        self.calls.as_slice()
    }
}
