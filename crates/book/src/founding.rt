// Why the founding of a register is refused.
ghost use Rattle.std.specs.Prelude.{◌≡◌};
ghost use Rattle.book.specs.Founding.{founding_number_of};

// The refusals of a founding. The numbers are what the register tells.
#[derive(Clone, Copy, PartialEq, Eq, Debug)]
pub enum FoundingRefusal {
    QuotaTooLarge = 23,
    NoHolder = 24,
}

impl FoundingRefusal {
    // The number that the refusal is told by.
    pub fn number(self) -> u8
        ensures { result ≡ founding_number_of self }
    {
        self as u8
    }
}
