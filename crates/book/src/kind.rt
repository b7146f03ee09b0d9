// What an entry of the book is.
ghost use Rattle.std.specs.Prelude.{◌≡◌};
ghost use Rattle.book.specs.Kinds.{is_authority, is_open};

// The kinds of entries. The last four are authorities: they have a quota.
#[derive(Clone, Copy, PartialEq, Eq, Debug)]
pub enum Kind {
    Panel,
    Retired,
    Offered,
    InHand,
    Open,
    Declined,
}

impl Kind {
    // Whether it is open: only such an authority gives.
    pub fn is_open(self) -> bool
        ensures { result ≡ is_open self }
    {
        matches!(self, Kind::Open)
    }

    // Whether entries of the kind are authorities.
    pub fn is_authority(self) -> bool
        ensures { result ≡ is_authority self }
    {
        !matches!(self, Kind::Panel | Kind::Retired)
    }
}
