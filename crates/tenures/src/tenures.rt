//! The tenures of a farm's nodes.
ghost use Rattle.std.specs.Prelude.{◌≡◌, ◌↔◌, ◌≤◌, ◌+◌, ◌&&◌, ◌||◌, ◌==◌, ◌++◌, ◌∷◌, [], length, true, not, filter, map, vec_len, vec_capacity, OnOk, OnErr};
ghost use Rattle.std.specs.List.{find, list_any};
ghost use Rattle.std.specs.Option.{option_copied};
ghost use Rattle.names.specs.declared.number.Ticket.{Ticket as AnyTicket};
ghost use Rattle.tenures.specs.Tenures.{among, is_at, is_wanted, is_under, is_recalled, is_open, in_use, all_in_use, asked, staged, taken_up, put_down, is_to_end};

use super::tenure::{Ends, Stage, Tenure};
use farm_base::{FolderName, Mode, NodeId, Ticket, Want};
use std::alloc::{AllocError, Global};
use std::marker::Model;

/// The tenures of a farm's nodes, and the tickets of those that were recalled.
#[derive(Drop)]
pub struct Tenures {
    tenures: Vec<Tenure>,
    recalled: Vec<Ticket>,
}

impl Model for Tenures {
    ghost use Rattle.tenures.specs.Tenures.{TenureParts};

    ghost Value = { TenureParts };

    ghost view = { λ t. record { tenures = t.tenures.items; recalled = t.recalled.items } };
}

/// Strikes the tenure of the folder on the node.
fn strike(tenures: &mut Vec<Tenure>, node: NodeId, folder: &FolderName)
    ensures { tenures.new.items ≡ filter (λ t. not (is_at node folder.now t)) tenures.old.items }
{
    tenures.retain(|tenure| !tenure.is_at(node, folder));
}

/// Lists the tickets of those tenures in use whose folders are SHARED and among the wants of an execution on the node.
fn note_wanted(recalled: &mut Vec<Ticket>, tenures: &[Tenure], node: NodeId, wants: &[Want])
    requires { vec_len recalled.old + length tenures.now ≤ vec_capacity recalled.old }
    ensures { (t : AnyTicket) → among recalled.new.items t ≡ (among recalled.old.items t || list_any (λ tenure. is_wanted node wants.now tenure && is_under t tenure) tenures.now) }
{
    for tenure in tenures {
        if tenure.is_wanted(node, wants) {
            if let Some(ticket) = tenure.stage.ticket() {
                recalled.push_reserved(ticket);
            }
        }
    }
}

impl Tenures {
    /// No tenures.
    pub fn new(alloc: Global) -> Self
        ensures { result ≡ record { tenures = []; recalled = [] } }
    {
        Tenures {
            tenures: Vec::new(alloc),
            recalled: Vec::new(alloc),
        }
    }

    /// Whether there is none.
    pub fn is_empty(&self) -> bool
        ensures { (result ≡ true) ↔ (self.now.tenures ≡ []) }
    {
        self.tenures.is_empty()
    }

    /// Whether the node has the tenure of the folder, or asked for it.
    pub fn has(&self, node: NodeId, folder: &FolderName) -> bool
        ensures { result ≡ list_any (is_at node folder.now) self.now.tenures }
    {
        self.tenures.iter().any(|tenure| tenure.is_at(node, folder))
    }

    /// Whether the tenure of this ticket was recalled.
    fn is_recalled(&self, ticket: Ticket) -> bool
        ensures { result ≡ is_recalled self.now ticket }
    {
        self.recalled.iter().any(|other| *other == ticket)
    }

    /// Whether the folder is open, and its tenure was not recalled.
    fn is_open(&self, tenure: &Tenure) -> bool
        ensures { result ≡ is_open self.now tenure.now }
    {
        match tenure.stage.ticket() {
            Some(ticket) => !self.is_recalled(ticket),
            None => false,
        }
    }

    /// Whether the folder is open on the node, and its tenure was not recalled.
    pub fn is_in_use(&self, node: NodeId, folder: &FolderName) -> bool
        ensures { result ≡ in_use self.now node folder.now }
    {
        self.tenures.iter().any(|tenure| tenure.is_at(node, folder) && self.is_open(tenure))
    }

    /// The same of each SHARED folder of the wants.
    pub fn are_in_use(&self, node: NodeId, wants: &[Want]) -> bool
        ensures { result ≡ all_in_use self.now node wants.now }
    {
        wants.iter().all(|want| {
            !matches!(want.folder.mode, Mode::Shared) || self.is_in_use(node, &want.folder)
        })
    }

    /// Adds a tenure that was asked for.
    pub fn add(&mut self, node: NodeId, folder: FolderName) -> Result<(), AllocError>
        ensures ok { OnOk result (self.new ≡ record self.old { tenures = self.old.tenures ++ asked node folder ∷ [] }) }
        ensures err { OnErr result (self.new ≡ self.old) }
    {
        self.tenures.push(Tenure::asked(node, folder))?;
        Ok(())
    }

    /// The tenure of the folder on the node stands so from now on.
    pub fn stage(&mut self, node: NodeId, folder: &FolderName, stage: Stage)
        ensures { self.new ≡ record self.old { tenures = map (staged node folder.now stage) self.old.tenures } }
    {
        for tenure in self.tenures.iter_mut() {
            tenure.stage(node, folder, stage);
        }
    }

    /// The tenure of the folder on the node is over.
    pub fn forget(&mut self, node: NodeId, folder: &FolderName)
        ensures { self.new ≡ record self.old { tenures = filter (λ t. not (is_at node folder.now t)) self.old.tenures } }
    {
        strike(&mut self.tenures, node, folder);
    }

    /// Counts an execution on the node that begins to use the SHARED folders of these wants.
    pub fn take_up(&mut self, node: NodeId, wants: &[Want])
        ensures { self.new ≡ record self.old { tenures = map (taken_up node wants.now) self.old.tenures } }
    {
        for tenure in self.tenures.iter_mut() {
            tenure.take_up(node, wants);
        }
    }

    /// Counts off an execution on the node that no longer uses the SHARED folders of these wants.
    pub fn put_down(&mut self, node: NodeId, wants: &[Want])
        ensures { self.new ≡ record self.old { tenures = map (put_down node wants.now) self.old.tenures } }
    {
        for tenure in self.tenures.iter_mut() {
            tenure.put_down(node, wants);
        }
    }

    /// Notes that the tenure of a ticket was recalled.
    pub fn recall(&mut self, ticket: Ticket) -> Result<(), AllocError>
        ensures tenures { self.new.tenures ≡ self.old.tenures }
        ensures recalled { OnOk result ((t : AnyTicket) → is_recalled self.new t ≡ (is_recalled self.old t || (t.0 == ticket.0))) }
        ensures err { OnErr result (self.new ≡ self.old) }
    {
        if !self.is_recalled(ticket) {
            self.recalled.push(ticket)?;
        }
        Ok(())
    }

    /// Notes as recalled the tenures of the SHARED folders of these wants that are in use on the node.
    pub fn recall_wanted(&mut self, node: NodeId, wants: &[Want]) -> Result<(), AllocError>
        ensures tenures { self.new.tenures ≡ self.old.tenures }
        ensures recalled { OnOk result ((t : AnyTicket) → is_recalled self.new t ≡ (is_recalled self.old t || list_any (λ tenure. is_wanted node wants.now tenure && is_under t tenure) self.old.tenures)) }
        ensures err { OnErr result (self.new ≡ self.old) }
    {
        self.recalled.reserve(self.tenures.len())?;
        note_wanted(&mut self.recalled, self.tenures.as_slice(), node, wants);
        Ok(())
    }

    /// Whether the tenure ends now.
    fn is_to_end(&self, tenure: &Tenure, ends: Ends) -> bool
        ensures { result ≡ is_to_end self.now ends tenure.now }
    {
        let Some(ticket) = tenure.stage.ticket() else {
            return false;
        };
        let wanted = match ends {
            Ends::Recalled => self.is_recalled(ticket),
            Ends::OfNode(node) => tenure.node == node,
            Ends::All => true,
        };
        wanted && tenure.users == 0
    }

    /// The next tenure that ends now.
    pub fn next_to_end(&self, ends: Ends) -> Option<&Tenure>
        ensures { option_copied result ≡ find (is_to_end self.now ends) self.now.tenures }
    {
        self.tenures
            .iter()
            .find(|tenure| self.is_to_end(tenure, ends))
    }
}
