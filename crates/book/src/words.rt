// Refusals of calls and of foundings in words.
ghost use Rattle.std.specs.Prelude.{Some};
ghost use Rattle.book.specs.Words.{words_of, founding_words};

use crate::founding::FoundingRefusal;
use crate::ranges::{FIRST_HOLDER, LAST_HOLDER, MOST_QUOTA};
use crate::refusal::Refusal;
use oid::identifier::MOST_ARCS;
use std::error::Error;
use std::fmt;

// What is wrong.
impl fmt::Display for Refusal {
    ghost output = { λ refusal. Some (words_of refusal) };

    fn fmt<W: fmt::Write>(&self, f: &mut fmt::Formatter<W>) -> fmt::Result {
        match self {
            Refusal::NotInBook => write!(f, "the identifier does not stand in the book"),
            Refusal::WrongKind => write!(f, "the entry is not of the kind that the call is for"),
            Refusal::NotHolder => write!(f, "the caller is not the holder who may do this"),
            Refusal::TooDeep => write!(
                f,
                "the new identifier would have more than {MOST_ARCS} arcs"
            ),
            Refusal::TooLittleLeft => write!(f, "the authority has too little left"),
            Refusal::NoArc => write!(
                f,
                "the rule has no free arc for it, or does not have the arc that is claimed"
            ),
            Refusal::ArcTaken => write!(
                f,
                "the authority has a child with the arc that is claimed"
            ),
            Refusal::BookFull => write!(f, "the book has as many entries as it can have"),
            Refusal::NotInHand => write!(
                f,
                "the Grant is another register's, or its entry is not in hand"
            ),
        }
    }
}

impl Error for Refusal {}

impl fmt::Display for FoundingRefusal {
    ghost output = { λ refusal. Some (founding_words refusal) };

    fn fmt<W: fmt::Write>(&self, f: &mut fmt::Formatter<W>) -> fmt::Result {
        match self {
            FoundingRefusal::QuotaTooLarge => write!(f, "the quota is above {MOST_QUOTA}"),
            FoundingRefusal::NoHolder => write!(
                f,
                "the holder is not from {FIRST_HOLDER} to {LAST_HOLDER}"
            ),
        }
    }
}

impl Error for FoundingRefusal {}
