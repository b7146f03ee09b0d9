// Refusals in words.
ghost use Rattle.std.specs.Prelude.{Some};
ghost use Rattle.oid.specs.Words.{words_of, fault_text};

use crate::arc::ARC_LIMIT;
use crate::identifier::{FEWEST_ARCS, LAST_SECOND, MOST_ARCS};
use crate::refusal::{Fault, Refusal};
use std::error::Error;
use std::fmt;

// What is wrong; where it speaks of a place, that is a fault's offset.
impl fmt::Display for Refusal {
    ghost output = { λ refusal. Some (words_of refusal) };

    #[tactic(auto, unfolding(crate::specs::Arcs::arc_limit))]
    fn fmt<W: fmt::Write>(&self, f: &mut fmt::Formatter<W>) -> fmt::Result {
        match self {
            Refusal::NotDotted => write!(
                f,
                "here the text is not decimal numbers with one dot between neighbours"
            ),
            Refusal::LeadingZero => write!(f, "the number here has a needless 0 in front"),
            Refusal::ArcTooLarge => write!(
                f,
                "the number here is above {ARC_LIMIT}, the largest that an identifier may have"
            ),
            Refusal::ArcCount => write!(
                f,
                "an identifier has {FEWEST_ARCS} to {MOST_ARCS} numbers"
            ),
            Refusal::FirstArcs => write!(
                f,
                "the first number is 0, 1 or 2, and after 0 or 1 the second is at most {LAST_SECOND}"
            ),
            Refusal::Header => write!(
                f,
                "here the content does not begin as an identifier does: 06, a length from 01 to 7F, and as many bytes"
            ),
            Refusal::Unfinished => write!(
                f,
                "the last byte of the contents is 80 or more, so a number is not finished"
            ),
            Refusal::Padded => write!(f, "the number here begins with a needless 80"),
            Refusal::PageTooShort => write!(f, "there is no room to write the identifier"),
        }
    }
}

impl Error for Refusal {}

// The number, the offset and the words.
impl fmt::Display for Fault {
    ghost output = { λ fault. Some (fault_text fault) };

    fn fmt<W: fmt::Write>(&self, f: &mut fmt::Formatter<W>) -> fmt::Result {
        let number = self.refusal.number();
        let offset = self.offset;
        let refusal = self.refusal;
        write!(f, "{number} {offset} {refusal}")
    }
}

impl Error for Fault {}
