//! What a node says again.
ghost use Rattle.std.specs.Prelude.{◌≡◌, ◌∷◌, IfOk};
ghost use Rattle.protocol.specs.Farm.{farm_limits};
ghost use Rattle.protocol.specs.Machine.{hello};
ghost use Rattle.protocol.specs.Nodes.{again, all_again, resent};
ghost use Rattle.nodecore.specs.Shown.{place, shown, Answers};

use super::message::NodeDone;
use super::node_core::NodeCore;
use events::{KeptAsk, NodeNote, NodeRefusal};
use farm_base::{Ask, Copied, Items, Message, Request};
use std::alloc::{AllocError, Global};

impl NodeCore {
    /// What an ask sends again.
    fn again(&self, alloc: Global, ask: Ask, kept: &KeptAsk) -> Result<Vec<Message>, AllocError>
        ensures { IfOk result (λ sends. sends.items
            ≡ again farm_limits (place self.now) (shown self.now) ask kept.now) }
    {
        match kept {
            KeptAsk::Open { wants, tenure } => {
                let request = Request::Acquire {
                    ask,
                    wants: wants.copy(alloc)?,
                    tenure: *tenure,
                };
                Ok(self.say(alloc, request)?.into_vec())
            }
            KeptAsk::Holding { grant, .. } => self.fetches(alloc, grant.slots.as_slice()),
            KeptAsk::Running { .. } => Ok(Vec::new(alloc)),
            KeptAsk::Finished { grant, news, .. } => {
                let request = Request::Commit {
                    ticket: grant.ticket,
                    news: news.copy(alloc)?,
                };
                Ok(self.say(alloc, request)?.into_vec())
            }
            KeptAsk::Over(_) => Ok(Vec::new(alloc)),
        }
    }

    /// A Hello, and what each ask sends again.
    fn all_again(&self, alloc: Global) -> Result<Vec<Message>, AllocError>
        ensures { IfOk result (λ sends. sends.items
            ≡ hello self.now.node self.now.life ∷ all_again farm_limits (place self.now) (shown self.now) (shown self.now).asks 0) }
    {
        let mut sends = self.say(alloc, Request::Hello)?.into_vec();
        for row in self.asks.rows.iter() {
            let is_made = row.place < self.asks.made;
            prove!(is_made);
            let ask = Ask(row.place as u64 + 1);
            let mut again = self.again(alloc, ask, &row.kept)?;
            sends.append(&mut again)?;
        }
        Ok(sends)
    }

    /// Says again what may have been lost: that it lives, and by rising ask what is still wanted, missing or
    /// unconfirmed. What runs says nothing.
    pub fn resend(&self, alloc: Global) -> Result<NodeDone, NodeRefusal>
        ensures { Answers (resent farm_limits (place self.now) (shown self.now)) (shown self.now) (shown self.now) result }
    {
        if self.spent {
            return Err(NodeRefusal::LivesSpent);
        }
        let Ok(sends) = self.all_again(alloc) else {
            return Err(NodeRefusal::OutOfMemory);
        };
        Ok(NodeDone {
            note: NodeNote::Resent,
            sends: Items::new(sends),
        })
    }
}
