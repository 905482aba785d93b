//! The jobs with their graphs.
ghost use Rattle.std.specs.Prelude.{◌≡◌, All, IfOk, OnOk, IfSome};
ghost use Rattle.solving.specs.Places.{Fits};

use super::fault::FarmFault;
use cachemounts::wants_of;
use executions::NodeKey;
use farm_base::{Copied, FolderName, Key, Mode, NodeId, Wants};
use jobs::Task;
use solverkeys::Keyed;
use std::alloc::{AllocError, Global};
use std::collections::HashMap;

/// The jobs, in their order, and for each key on a node the first job there whose graph has it.
#[derive(Drop)]
pub struct Work {
    jobs: Vec<(NodeId, Keyed)>,
    homes: HashMap<NodeKey, usize>,
}

/// A vertex of a graph.
#[derive(Clone, Copy)]
pub(crate) struct Place<'a> {
    pub(crate) keyed: &'a Keyed,
    pub(crate) vertex: usize,
}

impl Work {
    ghost use Rattle.solving.specs.Places.{IsPlaceOf};
    ghost use Rattle.solving.specs.Works.{jobs_of};

    /// The jobs, with the home of each key.
    pub fn of(alloc: Global, jobs: Vec<(NodeId, Keyed)>) -> Result<Self, AllocError>
        ensures { IfOk result (λ work. jobs_of work ≡ jobs.items) }
    {
        let mut homes = HashMap::new(alloc);
        for (job, (node, keyed)) in jobs.iter().enumerate() {
            add_keys(&mut homes, job, *node, keyed.keys())?;
        }
        Ok(Work { jobs, homes })
    }

    /// The jobs, in their order.
    pub fn jobs(&self) -> &[(NodeId, Keyed)]
        ensures { result.now ≡ jobs_of self.now }
    {
        self.jobs.as_slice()
    }

    /// The jobs, in their order.
    pub fn into_jobs(self) -> Vec<(NodeId, Keyed)>
        ensures { result.items ≡ jobs_of self }
    {
        let Work { jobs, homes: _ } = self;
        jobs
    }

    /// How many keys there are, those of each node for themselves.
    pub(crate) fn count(&self) -> usize {
        self.homes.len()
    }

    /// A vertex of a job on the node that has the key.
    pub(crate) fn find(&self, node: NodeId, key: &Key) -> Option<Place<'_>>
        ensures { IfSome result (IsPlaceOf key.now) }
    {
        let job = *self.homes.get(&NodeKey { node, key: *key })?;
        let (_, keyed) = self.jobs.get(job)?;
        let vertex = keyed.find(key)?;
        Some(Place { keyed, vertex })
    }
}

/// The vertex of a task on a node, and the wants of its execution.
pub(crate) fn fit<'a>(
    alloc: Global,
    work: &'a Work,
    node: NodeId,
    task: &Task,
) -> Result<(Place<'a>, Wants), FarmFault>
    ensures { IfOk result (λ found. Fits found.0 task.now found.1) }
{
    let Some(place) = work.find(node, &task.key) else {
        return Err(FarmFault::ReceiptLost);
    };
    if place.keyed.graph().inputs_of(place.vertex).len() != task.inputs.len() {
        return Err(FarmFault::ReceiptLost);
    }
    let wants = wants_of(alloc, place.keyed, place.vertex)?;
    Ok((place, wants))
}

/// Notes the job of each key that has none yet on the node.
fn add_keys(
    homes: &mut HashMap<NodeKey, usize>,
    job: usize,
    node: NodeId,
    keys: &[Key],
) -> Result<(), AllocError> {
    for key in keys {
        let spot = NodeKey { node, key: *key };
        if !homes.contains_key(&spot) {
            homes.insert(spot, job)?;
        }
    }
    Ok(())
}

/// The SHARED folders of all vertices, rising.
pub fn shared_folders(
    alloc: Global,
    jobs: &[(NodeId, Keyed)],
) -> Result<Vec<FolderName>, AllocError>
    ensures { IfOk result (λ folders. All (λ folder. folder.mode ≡ Mode.Shared) folders.items) }
{
    let mut folders = Vec::new(alloc);
    for (_, keyed) in jobs {
        add_folders(alloc, &mut folders, keyed)?;
    }
    folders.sort()?;
    Ok(folders)
}

/// Adds the SHARED folders of the vertices of a graph.
fn add_folders(
    alloc: Global,
    folders: &mut Vec<FolderName>,
    keyed: &Keyed,
) -> Result<(), AllocError>
    requires { All (λ folder. folder.mode ≡ Mode.Shared) folders.old.items }
    ensures { OnOk result (All (λ folder. folder.mode ≡ Mode.Shared) folders.new.items) }
{
    for vertex in 0..keyed.graph().len() {
        let wants = wants_of(alloc, keyed, vertex)?;
        add_wanted(alloc, folders, &wants)?;
    }
    Ok(())
}

/// Adds the SHARED folders of some wants.
fn add_wanted(alloc: Global, folders: &mut Vec<FolderName>, wants: &Wants) -> Result<(), AllocError>
    requires { All (λ folder. folder.mode ≡ Mode.Shared) folders.old.items }
    ensures { OnOk result (All (λ folder. folder.mode ≡ Mode.Shared) folders.new.items) }
{
    for want in wants.as_slice() {
        if let Mode::Shared = want.folder.mode {
            folders.push(want.folder.copy(alloc)?)?;
        }
    }
    Ok(())
}
