// Refusals of pages and of lines in words, and faults.
ghost use Rattle.std.specs.Prelude.{◌≡◌, Some, ◌∷◌, []};
ghost use Rattle.request.specs.Refusals.{letter_of};
ghost use Rattle.request.specs.Words.{page_words, line_words, words_of, fault_text};

use crate::limits::{LEAST_LINE, MOST_LINE};
use crate::page::{LEAST_PAGE, PageRefusal};
use crate::refusal::{Fault, LineRefusal, Refusal};
use std::error::Error;
use std::fmt;

impl fmt::Display for PageRefusal {
    ghost output = { λ refusal. Some (page_words refusal) };

    fn fmt<W: fmt::Write>(&self, f: &mut fmt::Formatter<W>) -> fmt::Result {
        match self {
            PageRefusal::TooShort => write!(f, "the page has fewer than {LEAST_PAGE} bytes"),
        }
    }
}

impl Error for PageRefusal {}

// What is wrong; where it speaks of a place, that is a fault's offset.
impl fmt::Display for LineRefusal {
    ghost output = { λ refusal. Some (line_words refusal) };

    fn fmt<W: fmt::Write>(&self, f: &mut fmt::Formatter<W>) -> fmt::Result {
        match self {
            LineRefusal::LineLength => { write!(f, "a line has {LEAST_LINE} to {MOST_LINE} bytes") }
            LineRefusal::UnknownVerb => write!(
                f,
                "before any space stands none of grant, claim, offer, accept, decline, retire and roll"
            ),
            LineRefusal::WrongFields => write!(
                f,
                "the fields are not as many as the verb has, with one space between and none at the ends"
            ),
            LineRefusal::NotANumber => write!(f, "the field here is not a number in its range"),
        }
    }
}

impl Error for LineRefusal {}

impl fmt::Display for Refusal {
    ghost output = { λ refusal. Some (words_of refusal) };

    fn fmt<W: fmt::Write>(&self, f: &mut fmt::Formatter<W>) -> fmt::Result {
        match self {
            Refusal::Line(refusal) => write!(f, "{refusal}"),
            Refusal::Identifier(refusal) => write!(f, "{refusal}"),
            Refusal::Book(refusal) => write!(f, "{refusal}"),
        }
    }
}

impl Error for Refusal {}

// The number, the letter, the offset and the words.
impl fmt::Display for Fault {
    ghost output = { λ fault. Some (fault_text fault) };

    fn fmt<W: fmt::Write>(&self, f: &mut fmt::Formatter<W>) -> fmt::Result {
        let number = self.refusal.number();
        let letter = letter_text(self.refusal);
        let offset = self.offset;
        let refusal = self.refusal;
        write!(f, "{number} {letter} {offset} {refusal}")
    }
}

impl Error for Fault {}

// The letter that says who refused, as text.
fn letter_text(refusal: Refusal) -> &'static str
    ensures { result.now ≡ letter_of refusal ∷ [] }
{
    match refusal {
        Refusal::Line(_) => "L",
        Refusal::Identifier(_) => "C",
        Refusal::Book(_) => "R",
    }
}
