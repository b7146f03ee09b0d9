// What a line holds.
ghost use Rattle.std.specs.Prelude.{Some, Ok};
ghost use Rattle.sticker.specs.Answers.{said, printed};

use codecs::{Der, Described, Identifier, Notation, PAGE_LIMIT, Text};
use input::Pairs;
use std::fmt;

#[derive(Clone, Copy)]
pub enum Found {
    // A sticker's identifier.
    Sticker(Identifier),
    // A chip's identifier, how many bytes of the content it took, and how many are left.
    Chip {
        identifier: Identifier,
        taken: usize,
        left: usize,
    },
}

impl fmt::Display for Found {
    ghost output = { λ found. Some (printed (said (Ok found))) };

    fn fmt<W: fmt::Write>(&self, f: &mut fmt::Formatter<W>) -> fmt::Result {
        match self {
            Found::Sticker(identifier) => {
                let described = Described(*identifier);
                let mut page = [0; PAGE_LIMIT];
                let encoding = Pairs {
                    bytes: Der::written_on(identifier, &mut page),
                    between: "",
                };
                write!(f, "{described} der {encoding}")
            }
            Found::Chip {
                identifier,
                taken,
                left,
            } => {
                let text = Text(identifier);
                write!(f, "{text} taken {taken} left {left}")
            }
        }
    }
}
