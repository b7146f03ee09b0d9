// An identifier printed.
ghost use Rattle.std.specs.Prelude.{Some};
ghost use Rattle.oid.specs.Meaning.{arcs_of};
ghost use Rattle.dotted.specs.Writing.{dotted_text};
ghost use Rattle.codecs.specs.Printed.{described};

use crate::notation::{Dotted, Notation, PAGE_LIMIT};
use oid::Identifier;
use std::{fmt, str};

// Prints an identifier as dotted text.
#[derive(Clone, Copy)]
pub struct Text<'a>(pub &'a Identifier);

impl fmt::Display for Text<'_> {
    ghost output = { λ text. Some (dotted_text (arcs_of text.0.now)) };

    fn fmt<W: fmt::Write>(&self, f: &mut fmt::Formatter<W>) -> fmt::Result {
        let mut page = [0; PAGE_LIMIT];
        let text = Dotted::written_on(self.0, &mut page);
        f.write_str(str::from_utf8(text).unwrap())
    }
}

// Prints an identifier with the count of its arcs and its parent.
#[derive(Clone, Copy)]
pub struct Described(pub Identifier);

impl fmt::Display for Described {
    ghost output = { λ d. Some (described (arcs_of d.0)) };

    fn fmt<W: fmt::Write>(&self, f: &mut fmt::Formatter<W>) -> fmt::Result {
        let text = Text(&self.0);
        let count = self.0.len();
        write!(f, "{text} arcs {count} parent ")?;
        match self.0.parent() {
            Some(parent) => {
                let parent = Text(&parent);
                write!(f, "{parent}")
            }
            None => f.write_str("none"),
        }
    }
}
