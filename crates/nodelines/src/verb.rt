ghost use Rattle.std.specs.Prelude.{◌≡◌, ◌≢◌, IfSome, IfNone};
ghost use Rattle.nodelines.specs.declared.verb.Verb.{Verb};
ghost use Rattle.nodelines.specs.Orders.{verb_text};

/// The word that a line of the agent's begins with.
#[derive(Clone, Copy)]
pub(crate) enum Verb {
    Ask,
    Tenure,
    Begin,
    Finish,
    Abort,
    Resend,
    Blob,
    Content,
    Forget,
    State,
}

/// Maps a word to its verb.
pub(crate) fn verb_of(word: &str) -> Option<Verb>
    ensures found { IfSome result (λ verb. word.now ≡ verb_text verb) }
    ensures only { IfNone result ((verb : Verb) → word.now ≢ verb_text verb) }
{
    match word {
        "ask" => Some(Verb::Ask),
        "tenure" => Some(Verb::Tenure),
        "begin" => Some(Verb::Begin),
        "finish" => Some(Verb::Finish),
        "abort" => Some(Verb::Abort),
        "resend" => Some(Verb::Resend),
        "blob" => Some(Verb::Blob),
        "content" => Some(Verb::Content),
        "forget" => Some(Verb::Forget),
        "state" => Some(Verb::State),
        _ => None,
    }
}
