// The names of counter calls.
ghost use Rattle.std.specs.Prelude.{◌≡◌};
ghost use Rattle.counter.specs.Names.{name_of, name_text};

// What a line begins with.
#[derive(Clone, Copy, PartialEq, Eq, Debug)]
pub enum Name {
    Collect,
    Accept,
    Decline,
    Terms,
    Left,
    Tells,
}

impl Name {
    // The name that a word is, if it is one.
    pub fn of(word: &[u8]) -> Option<Name>
        ensures { result ≡ name_of word.now }
    {
        match word {
            b"@collect" => Some(Name::Collect),
            b"@accept" => Some(Name::Accept),
            b"@decline" => Some(Name::Decline),
            b"@terms" => Some(Name::Terms),
            b"@left" => Some(Name::Left),
            b"@tells" => Some(Name::Tells),
            _ => None,
        }
    }

    // The word that it is.
    pub fn text(self) -> &'static str
        ensures { result.now ≡ name_text self }
    {
        match self {
            Name::Collect => "@collect",
            Name::Accept => "@accept",
            Name::Decline => "@decline",
            Name::Terms => "@terms",
            Name::Left => "@left",
            Name::Tells => "@tells",
        }
    }
}
