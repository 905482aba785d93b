//! The verbs of the events, and how the line of each is written: the one table of them.
ghost use Rattle.std.specs.Prelude.{◌≡◌, ◌≢◌, IfSome, IfNone};
ghost use Rattle.schedule.specs.declared.verb.Verb.{Verb};
ghost use Rattle.schedule.specs.Words.{verb_text};
ghost use Rattle.schedule.specs.Forms.{first_words, further_words, wanted_at};

/// What a word of an event's line stands for.
#[derive(Clone, Copy)]
pub enum Wanted {
    Node,
    /// A node, or `coordinator`.
    NodeOrCoordinator,
    Message,
    Ticket,
    /// A folder, with `ro=` before it if it's only read.
    Folder,
    SharedFolder,
    Slot,
    /// A slot with the content that is left in it.
    Left,
    Content,
    Digest,
    /// What a record holds after a failed save.
    Kept,
}

/// How the line of an event is written.
#[derive(Clone, Copy)]
pub struct Form {
    pub verb: &'static str,
    /// What is written behind the verb.
    pub fields: &'static str,
    /// What the words behind the verb stand for.
    pub words: &'static [Wanted],
    /// What any further words stand for, if there may be some.
    pub others: Option<Wanted>,
}

/// The word that a line begins with.
#[derive(Clone, Copy)]
pub enum Verb {
    Ask,
    Tenure,
    Deliver,
    Begin,
    Finish,
    Abort,
    Resend,
    Restart,
    Forge,
    Forget,
    Nudge,
    Withdraw,
    Prune,
    Retire,
    Fail,
}

impl Verb {
    /// How a line with this verb is written.
    pub fn form(self) -> Form
        ensures verb { result.verb.now ≡ verb_text self }
        ensures words { result.words.now ≡ first_words self }
        ensures others { result.others ≡ further_words self }
    {
        match self {
            Verb::Ask => Form {
                verb: "ask",
                fields: "NODE FOLDER..",
                words: &[Wanted::Node],
                others: Some(Wanted::Folder),
            },
            Verb::Tenure => Form {
                verb: "tenure",
                fields: "NODE FOLDER",
                words: &[Wanted::Node, Wanted::SharedFolder],
                others: None,
            },
            Verb::Deliver => Form {
                verb: "deliver",
                fields: "MESSAGE",
                words: &[Wanted::Message],
                others: None,
            },
            Verb::Begin => Form {
                verb: "begin",
                fields: "NODE TICKET",
                words: &[Wanted::Node, Wanted::Ticket],
                others: None,
            },
            Verb::Finish => Form {
                verb: "finish",
                fields: "NODE TICKET SLOT=HEX..",
                words: &[Wanted::Node, Wanted::Ticket],
                others: Some(Wanted::Left),
            },
            Verb::Abort => Form {
                verb: "abort",
                fields: "NODE TICKET",
                words: &[Wanted::Node, Wanted::Ticket],
                others: None,
            },
            Verb::Resend => Form {
                verb: "resend",
                fields: "NODE",
                words: &[Wanted::Node],
                others: None,
            },
            Verb::Restart => Form {
                verb: "restart",
                fields: "NODE",
                words: &[Wanted::NodeOrCoordinator],
                others: None,
            },
            Verb::Forge => Form {
                verb: "forge",
                fields: "NODE HEX",
                words: &[Wanted::Node, Wanted::Content],
                others: None,
            },
            Verb::Forget => Form {
                verb: "forget",
                fields: "NODE DIGEST",
                words: &[Wanted::Node, Wanted::Digest],
                others: None,
            },
            Verb::Nudge => Form {
                verb: "nudge",
                fields: "",
                words: &[],
                others: None,
            },
            Verb::Withdraw => Form {
                verb: "withdraw",
                fields: "TICKET",
                words: &[Wanted::Ticket],
                others: None,
            },
            Verb::Prune => Form {
                verb: "prune",
                fields: "SLOT",
                words: &[Wanted::Slot],
                others: None,
            },
            Verb::Retire => Form {
                verb: "retire",
                fields: "NODE",
                words: &[Wanted::Node],
                others: None,
            },
            Verb::Fail => Form {
                verb: "fail",
                fields: "KEPT",
                words: &[Wanted::Kept],
                others: None,
            },
        }
    }

    /// What the word at this index behind the verb stands for. None: no word may stand there.
    pub fn wanted_at(self, index: usize) -> Option<Wanted>
        ensures { result ≡ wanted_at self index }
    {
        let form = self.form();
        match form.words.get(index) {
            Some(wanted) => Some(*wanted),
            None => form.others,
        }
    }
}

/// The verbs, in the order of the documents.
pub const VERBS: [Verb; 15] = [
    Verb::Ask,
    Verb::Tenure,
    Verb::Deliver,
    Verb::Begin,
    Verb::Finish,
    Verb::Abort,
    Verb::Resend,
    Verb::Restart,
    Verb::Forge,
    Verb::Forget,
    Verb::Nudge,
    Verb::Withdraw,
    Verb::Prune,
    Verb::Retire,
    Verb::Fail,
];

/// Maps a word to its verb.
pub(crate) fn verb_of(word: &str) -> Option<Verb>
    ensures found { IfSome result (λ verb. word.now ≡ verb_text verb) }
    ensures only { IfNone result ((verb : Verb) → word.now ≢ verb_text verb) }
{
    for verb in VERBS {
        if verb.form().verb == word {
            return Some(verb);
        }
    }
    None
}
