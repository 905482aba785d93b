ghost use Rattle.std.specs.Prelude.{◌≡◌};
ghost use Rattle.schedule.specs.RefusalNames.{coord_refusal_text, node_refusal_text, refusal_text};

use events::{CoordRefusal, EventRefusal, NodeRefusal};

fn coord_name(refusal: CoordRefusal) -> &'static str
    ensures { result.now ≡ coord_refusal_text refusal }
{
    match refusal {
        CoordRefusal::Down => "Down",
        CoordRefusal::SaveFault => "SaveFault",
        CoordRefusal::BadRecord => "BadRecord",
        CoordRefusal::NotLive => "NotLive",
        CoordRefusal::SlotLeased => "SlotLeased",
        CoordRefusal::NoSuchSlot => "NoSuchSlot",
        CoordRefusal::TicketsSpent => "TicketsSpent",
        CoordRefusal::OutOfMemory => "OutOfMemory",
        CoordRefusal::LoadFault => "LoadFault",
        CoordRefusal::Tenure => "Tenure",
        CoordRefusal::TenureHeld => "TenureHeld",
        CoordRefusal::NodeRetired => "NodeRetired",
    }
}

fn node_name(refusal: NodeRefusal) -> &'static str
    ensures { result.now ≡ node_refusal_text refusal }
{
    match refusal {
        NodeRefusal::NotHomeHere => "NotHomeHere",
        NodeRefusal::NoSuchTicket => "NoSuchTicket",
        NodeRefusal::ContentsMissing => "ContentsMissing",
        NodeRefusal::WrongNews => "WrongNews",
        NodeRefusal::NotRunning => "NotRunning",
        NodeRefusal::LivesSpent => "LivesSpent",
        NodeRefusal::AsksSpent => "AsksSpent",
        NodeRefusal::OutOfMemory => "OutOfMemory",
        NodeRefusal::TenureHere => "TenureHere",
        NodeRefusal::TenureInUse => "TenureInUse",
        NodeRefusal::NoSuchContent => "NoSuchContent",
        NodeRefusal::Needed => "Needed",
    }
}

/// The name of the refusal, or of the refusal within it.
pub fn refusal_name(refusal: EventRefusal) -> &'static str
    ensures { result.now ≡ refusal_text refusal }
{
    match refusal {
        EventRefusal::NoSuchMessage => "NoSuchMessage",
        EventRefusal::NoSuchNode => "NoSuchNode",
        EventRefusal::Node(refusal) => node_name(refusal),
        EventRefusal::Coord(refusal) => coord_name(refusal),
        EventRefusal::OutOfMemory => "OutOfMemory",
    }
}
