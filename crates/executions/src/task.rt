ghost use Rattle.std.specs.Prelude.{◌≡◌};
ghost use Rattle.std.specs.Option.{option_copied};

use farm_base::{Digest, FolderName, Items, Key};
use folders::Folder;
use opsproto::{ExecOp, Kind};
use protowire::SharedBytes;
use std::marker::Model;

/// What an execution sees at a cache mount.
#[derive(Drop)]
pub struct View {
    /// The mount's place among the command's mounts, from 0.
    pub mount: usize,
    pub folder: FolderName,
    /// Whether the execution may change the folder.
    pub writable: bool,
    pub files: Folder,
    /// The output that the mount's input takes, if it has one.
    pub base: Option<Digest>,
}

/// What an executor is given. Only `run_leased` makes it.
pub struct ExecTask {
    pub(crate) key: Key,
    /// What the vertex does.
    pub(crate) kind: Kind,
    pub(crate) stripped: SharedBytes,
    pub(crate) inputs: Items<Digest>,
    pub(crate) views: Items<View>,
}

// By hand, so that letting go of one is one step of a proof.
impl Drop for ExecTask {
    fn drop(self) {
        let Self {
            key: _,
            kind: _,
            stripped: _,
            inputs: _,
            views: _,
        } = self;
    }
}

impl Model for ExecTask {
    ghost use Rattle.executions.specs.Given.{command_in};
    ghost use Rattle.executions.specs.TaskParts.{TaskParts};

    ghost Value = { TaskParts };

    ghost view = { λ t. record { key = t.key; stripped = t.stripped; exec = command_in t.kind; inputs = t.inputs; views = t.views } };
}

impl ExecTask {
    /// The solver key of the vertex.
    pub fn key(&self) -> Key
        ensures { result ≡ self.now.key }
    {
        self.key
    }

    /// The bytes of the vertex's op without its inputs.
    pub fn stripped(&self) -> &[u8]
        ensures { result.now ≡ self.now.stripped }
    {
        self.stripped.as_slice()
    }

    /// The command, where the vertex runs one.
    pub fn exec(&self) -> Option<&ExecOp>
        ensures { option_copied result ≡ self.now.exec }
    {
        match &self.kind {
            Kind::Exec(exec) => Some(exec),
            Kind::Opaque(_) | Kind::Bare => None,
        }
    }

    /// The outputs that the vertex's inputs name, in order.
    pub fn inputs(&self) -> &[Digest]
        ensures { result.now ≡ self.now.inputs }
    {
        self.inputs.as_slice()
    }

    /// What it sees at each cache mount, in their order.
    pub fn views(&self) -> &[View]
        ensures { result.now ≡ self.now.views }
    {
        self.views.as_slice()
    }
}
