// Why an identifier could not be read or written, and where.
ghost use Rattle.std.specs.Prelude.{◌≡◌};
ghost use Rattle.oid.specs.Refusals.{number_of, fault_at};

// The refusals of all notations. The numbers are what programs print.
#[derive(Clone, Copy, PartialEq, Eq, Debug)]
pub enum Refusal {
    NotDotted = 1,
    LeadingZero = 2,
    ArcTooLarge = 3,
    ArcCount = 4,
    FirstArcs = 5,
    Header = 6,
    Unfinished = 7,
    Padded = 8,
    PageTooShort = 25,
}

impl Refusal {
    // The number that the refusal is told by.
    pub fn number(self) -> u8
        ensures { result ≡ number_of self }
    {
        self as u8
    }

    // The refusal as a fault at an offset.
    pub fn at(self, offset: usize) -> Fault
        ensures { result ≡ fault_at self offset }
    {
        Fault {
            refusal: self,
            offset,
        }
    }
}

// A refusal, and the offset of the byte where it was found.
#[derive(Clone, Copy, PartialEq, Eq, Debug)]
pub struct Fault {
    pub refusal: Refusal,
    pub offset: usize,
}
