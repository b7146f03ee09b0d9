// The verbs of request lines.
ghost use Rattle.std.specs.Prelude.{◌≡◌};
ghost use Rattle.request.specs.Verbs.{verb_of};

// What a line begins with.
#[derive(Clone, Copy, PartialEq, Eq, Debug)]
pub(crate) enum Verb {
    Grant,
    Claim,
    Offer,
    Accept,
    Decline,
    Retire,
    Roll,
}

impl Verb {
    // The verb that a word is, if it is one.
    pub(crate) fn of(word: &[u8]) -> Option<Verb>
        ensures { result ≡ verb_of word.now }
    {
        match word {
            b"grant" => Some(Verb::Grant),
            b"claim" => Some(Verb::Claim),
            b"offer" => Some(Verb::Offer),
            b"accept" => Some(Verb::Accept),
            b"decline" => Some(Verb::Decline),
            b"retire" => Some(Verb::Retire),
            b"roll" => Some(Verb::Roll),
            _ => None,
        }
    }
}
