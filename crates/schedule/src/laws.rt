//! Laws of lines and schedules.
ghost use Rattle.std.specs.Prelude.{◌≡◌, ◌≢◌, ℕ, List};
ghost use Rattle.events.specs.declared.event.Event.{Event};
ghost use Rattle.schedule.specs.declared.setup.Setup.{Setup};
ghost use Rattle.schedule.specs.declared.refusal.ScheduleRefusal.{ScheduleRefusal};
ghost use Rattle.schedule.specs.Forms.{IsOfForm};
ghost use Rattle.schedule.specs.Lines.{IsSpelled};
ghost use Rattle.schedule.specs.Schedules.{IsSchedule, IsRefused};

/// A line spells at most one event.
pub fn a_line_spells_one_event()
    ensures { (line : List ℕ) (a b : Event) → IsSpelled line a → IsSpelled line b → a ≡ b }
{}

/// A line that spells an event is written as its verb's form says.
pub fn an_event_is_of_its_form()
    ensures { (line : List ℕ) (e : Event) → IsSpelled line e → IsOfForm line }
{}

/// A text says one schedule or has one first fault, and not both.
pub fn a_text_says_one_thing()
    ensures schedule { (text : List ℕ) (s t : Setup) (es fs : List Event) → IsSchedule text s es → IsSchedule text t fs
        → (s ≡ t) × (es ≡ fs) }
    ensures fault { (text : List ℕ) (d e : ScheduleRefusal) → d ≢ ScheduleRefusal.OutOfMemory → e ≢ ScheduleRefusal.OutOfMemory
        → IsRefused text d → IsRefused text e → d ≡ e }
    ensures apart { (text : List ℕ) (s : Setup) (es : List Event) (d : ScheduleRefusal) → IsSchedule text s es → IsRefused text d
        → d ≡ ScheduleRefusal.OutOfMemory }
{}
