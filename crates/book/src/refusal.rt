// Why the register refuses a call.
ghost use Rattle.std.specs.Prelude.{◌≡◌};
ghost use Rattle.book.specs.Refusals.{number_of};

// The refusals of calls, in the order of the questions. The numbers are what callers are told.
#[derive(Clone, Copy, PartialEq, Eq, Debug)]
pub enum Refusal {
    NotInBook = 14,
    WrongKind = 15,
    NotHolder = 16,
    TooDeep = 17,
    TooLittleLeft = 18,
    NoArc = 19,
    ArcTaken = 20,
    BookFull = 21,
    NotInHand = 22,
}

impl Refusal {
    // The number that the refusal is told by.
    pub fn number(self) -> u8
        ensures { result ≡ number_of self }
    {
        self as u8
    }
}
