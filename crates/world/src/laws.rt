//! Laws of schedules and of what is printed.
ghost use Rattle.std.specs.Prelude.{◌≡◌, ℕ, List};
ghost use Rattle.names.specs.Contents.{content_digest};
ghost use Rattle.protocol.specs.Farm.{farm_limits};
ghost use Rattle.protocol.specs.Names.{Slot};
ghost use Rattle.protocol.specs.Machine.{LineVersion};
ghost use Rattle.protocol.specs.World.{start};
ghost use Rattle.protocol.specs.Chronicle.{Chronicle};
ghost use Rattle.protocol.specs.Replay.{opening};
ghost use Rattle.events.specs.declared.event.Event.{Event};
ghost use Rattle.world.specs.Printing.{ArePrinted};
ghost use Rattle.world.specs.Replays.{KeepsHeadline};

use protocol::laws::every_schedule_means;

/// Every schedule has a chronicle, in which each event means what it answers, and the headline of this project
/// holds after each part of it.
pub fn every_replay_means()
    ensures chronicle { (size : ℕ) (events : List Event) → Chronicle content_digest farm_limits events (opening content_digest size) (start content_digest) }
    ensures headline { (size : ℕ) (events : List Event) → KeepsHeadline size events }
{
    every_schedule_means();
}

/// The lines of a farm have one text.
pub fn lines_have_one_text()
    ensures { (line : Slot → List LineVersion) (a b : List ℕ) → ArePrinted line a → ArePrinted line b → a ≡ b }
{}
