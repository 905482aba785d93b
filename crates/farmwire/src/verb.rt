ghost use Rattle.std.specs.Prelude.{◌≡◌, ◌≢◌, IfSome, IfNone};
ghost use Rattle.farmwire.specs.declared.verb.Verb.{Verb};
ghost use Rattle.farmwire.specs.Words.{verb_text};

/// The word that a text begins with.
#[derive(Clone, Copy)]
pub(crate) enum Verb {
    Hello,
    Acquire,
    Tenure,
    Commit,
    Release,
    Granted,
    Committed,
    Fenced,
    Denied,
    Recall,
    Fetch,
    Blob,
}

/// Maps a word to its verb.
pub(crate) fn verb_of(word: &str) -> Option<Verb>
    ensures found { IfSome result (λ verb. word.now ≡ verb_text verb) }
    ensures only { IfNone result ((verb : Verb) → word.now ≢ verb_text verb) }
{
    match word {
        "hello" => Some(Verb::Hello),
        "acquire" => Some(Verb::Acquire),
        "tenure" => Some(Verb::Tenure),
        "commit" => Some(Verb::Commit),
        "release" => Some(Verb::Release),
        "granted" => Some(Verb::Granted),
        "committed" => Some(Verb::Committed),
        "fenced" => Some(Verb::Fenced),
        "denied" => Some(Verb::Denied),
        "recall" => Some(Verb::Recall),
        "fetch" => Some(Verb::Fetch),
        "blob" => Some(Verb::Blob),
        _ => None,
    }
}
