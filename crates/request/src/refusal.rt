// Why a line is answered with a no, and where in it.
ghost use Rattle.std.specs.Prelude.{◌≡◌};
ghost use Rattle.request.specs.declared.refusal.Refusal.TheVariants.{Line};
ghost use Rattle.request.specs.Refusals.{line_number, number_of, letter_of, fault_at};

// The refusals of a line's text, but for its identifier, in the order of the questions.
#[derive(Clone, Copy, PartialEq, Eq, Debug)]
pub enum LineRefusal {
    LineLength = 10,
    UnknownVerb = 11,
    WrongFields = 12,
    NotANumber = 13,
}

// All refusals that a line can get: for its text, for the text of its identifier, or by the book.
#[derive(Clone, Copy, PartialEq, Eq, Debug)]
pub enum Refusal {
    Line(LineRefusal),
    Identifier(oid::Refusal),
    Book(book::Refusal),
}

// A refusal, and the offset in the line where it was found; by the book, where the line's identifier begins.
#[derive(Clone, Copy, PartialEq, Eq, Debug)]
pub struct Fault {
    pub refusal: Refusal,
    pub offset: usize,
}

impl LineRefusal {
    // The number that the refusal is told by.
    pub fn number(self) -> u8
        ensures { result ≡ line_number self }
    {
        self as u8
    }

    // The refusal as a fault at an offset.
    pub fn at(self, offset: usize) -> Fault
        ensures { result ≡ fault_at (Line self) offset }
    {
        Fault {
            refusal: Refusal::Line(self),
            offset,
        }
    }
}

impl Refusal {
    // The number that the refusal is told by.
    pub fn number(self) -> u8
        ensures { result ≡ number_of self }
    {
        match self {
            Refusal::Line(refusal) => refusal.number(),
            Refusal::Identifier(refusal) => refusal.number(),
            Refusal::Book(refusal) => refusal.number(),
        }
    }

    // The letter that says who refused: L for the line, C for the codec that reads its identifier, R for the register's book.
    pub fn letter(self) -> u8
        ensures { result ≡ letter_of self }
    {
        match self {
            Refusal::Line(_) => b'L',
            Refusal::Identifier(_) => b'C',
            Refusal::Book(_) => b'R',
        }
    }
}
