//! One tenure.
ghost use Rattle.std.specs.Prelude.{◌≡◌};
ghost use Rattle.tenures.specs.Tenures.{asked, is_at, is_wanted, put_down, share, staged, taken_up, ticket_of};

use farm_base::{FolderName, Mode, NodeId, Ticket, Want};

/// How the tenure of a SHARED folder stands on a node.
#[derive(Clone, Copy)]
pub enum Stage {
    /// It was asked for.
    Asked,
    /// It is in use under this ticket, and its folder is open.
    InUse(Ticket),
    /// Its folder was closed, and what it left is not settled.
    Ending,
}

/// The tenure of a SHARED folder on a node, from its ask until it is settled.
#[derive(Drop)]
pub struct Tenure {
    pub node: NodeId,
    pub folder: FolderName,
    pub stage: Stage,
    /// How many executions use the folder, or ask for their leases.
    pub users: usize,
}

/// Which tenures end now, where no execution uses them.
#[derive(Clone, Copy)]
pub enum Ends {
    /// Those that were recalled.
    Recalled,
    OfNode(NodeId),
    All,
}

impl Stage {
    /// The ticket of a tenure that is in use.
    pub fn ticket(self) -> Option<Ticket>
        ensures { result ≡ ticket_of self }
    {
        match self {
            Stage::InUse(ticket) => Some(ticket),
            Stage::Asked | Stage::Ending => None,
        }
    }
}

impl Tenure {
    /// A tenure that was asked for.
    pub fn asked(node: NodeId, folder: FolderName) -> Self
        ensures { result ≡ asked node folder }
    {
        Tenure {
            node,
            folder,
            stage: Stage::Asked,
            users: 0,
        }
    }

    /// Whether it is the tenure of the folder on the node.
    pub fn is_at(&self, node: NodeId, folder: &FolderName) -> bool
        ensures { result ≡ is_at node folder.now self.now }
    {
        self.node == node && self.folder == *folder
    }

    /// Whether an execution on the node with these wants uses its folder.
    pub fn is_wanted(&self, node: NodeId, wants: &[Want]) -> bool
        ensures { result ≡ is_wanted node wants.now self.now }
    {
        self.node == node && share(wants, &self.folder)
    }

    /// Stands so from now on, if it is that of the folder on the node.
    pub(crate) fn stage(&mut self, node: NodeId, folder: &FolderName, stage: Stage)
        ensures { self.new ≡ staged node folder.now stage self.old }
    {
        if self.is_at(node, folder) {
            self.stage = stage;
        }
    }

    /// Counts one execution more, if one on the node with these wants uses its folder.
    pub(crate) fn take_up(&mut self, node: NodeId, wants: &[Want])
        ensures { self.new ≡ taken_up node wants.now self.old }
    {
        if self.is_wanted(node, wants) {
            self.users = self.users.saturating_add(1);
        }
    }

    /// Counts one execution less, if one on the node with these wants uses its folder.
    pub(crate) fn put_down(&mut self, node: NodeId, wants: &[Want])
        ensures { self.new ≡ put_down node wants.now self.old }
    {
        if self.is_wanted(node, wants) {
            self.users = self.users.saturating_sub(1);
        }
    }
}

/// Whether the folder is SHARED and among the wants.
fn share(wants: &[Want], folder: &FolderName) -> bool
    ensures { result ≡ share wants.now folder.now }
{
    wants.iter().any(|want| matches!(want.folder.mode, Mode::Shared) && want.folder == *folder)
}
