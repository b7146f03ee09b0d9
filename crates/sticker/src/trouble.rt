// Why a line holds no identifier.
ghost use Rattle.std.specs.Prelude.{◌≡◌, Some, Err};
ghost use Rattle.sticker.specs.Answers.{said, printed};
ghost use Rattle.sticker.specs.declared.trouble.Trouble.TheVariants.{Faulty};

use codecs::Fault;
use input::TooLong;
use std::error::Error;
use std::fmt;

#[derive(Clone, Copy, PartialEq, Eq, Debug)]
pub enum Trouble {
    // The text or the content is refused.
    Faulty(Fault),
    // A chip's line has a byte at this offset that is no digit of a pair.
    NotHex { offset: usize },
    // The line has more bytes than may be read.
    Long,
}

impl From<Fault> for Trouble {
    ghost from_gives = { λ fault trouble. trouble ≡ Faulty fault };

    fn from(fault: Fault) -> Trouble {
        Trouble::Faulty(fault)
    }
}

impl fmt::Display for Trouble {
    ghost output = { λ trouble. Some (printed (said (Err trouble))) };

    fn fmt<W: fmt::Write>(&self, f: &mut fmt::Formatter<W>) -> fmt::Result {
        match self {
            Trouble::Faulty(fault) => write!(f, "{fault}"),
            Trouble::NotHex { offset } => write!(
                f,
                "hex {offset} the byte here is no hexadecimal digit of a pair"
            ),
            Trouble::Long => write!(f, "{TooLong}"),
        }
    }
}

impl Error for Trouble {}
