// What is told at the counter.
ghost use Rattle.std.specs.Prelude.{Some};
ghost use Rattle.desk.specs.Told.{told_text};

use book::Refusal;
use counter::NoCall;
use register::Terms;
use std::fmt;

// What a counter call is answered: the terms of the Grant that a collect gave, or of one that is out; that it is done; what an authority
// has left; what is told of the founding; a refusal; or what is wrong with a line that is no call.
#[derive(Clone, Copy, PartialEq, Eq, Debug)]
pub enum Told {
    Granted(Terms),
    Done,
    Terms(Terms),
    Left(u64),
    Tells(u8),
    No(Refusal),
    NoCall(NoCall),
}

impl fmt::Display for Told {
    ghost output = { λ told. Some (told_text told) };

    fn fmt<W: fmt::Write>(&self, f: &mut fmt::Formatter<W>) -> fmt::Result {
        match self {
            Told::Granted(Terms { holder, quota }) => write!(f, "grant {holder} {quota}"),
            Told::Done => write!(f, "ok"),
            Told::Terms(Terms { holder, quota }) => write!(f, "terms {holder} {quota}"),
            Told::Left(left) => write!(f, "left {left}"),
            Told::Tells(number) => write!(f, "tells {number}"),
            Told::No(refusal) => {
                let number = refusal.number();
                write!(f, "no {number}")
            }
            Told::NoCall(no_call) => write!(f, "no call {no_call}"),
        }
    }
}
