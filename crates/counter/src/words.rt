// Names of counter calls, and what is wrong with lines, in words.
ghost use Rattle.std.specs.Prelude.{◌≡◌, Some};
ghost use Rattle.counter.specs.Names.{name_text};
ghost use Rattle.counter.specs.Words.{takes_text, words_of};

use crate::name::Name;
use crate::no_call::NoCall;
use crate::reader::MOST_NUMBER;
use std::error::Error;
use std::fmt;

impl fmt::Display for Name {
    ghost output = { λ name. Some (name_text name) };

    fn fmt<W: fmt::Write>(&self, f: &mut fmt::Formatter<W>) -> fmt::Result {
        let text = self.text();
        write!(f, "{text}")
    }
}

// What was expected, and where.
impl fmt::Display for NoCall {
    ghost output = { λ no_call. Some (words_of no_call) };

    fn fmt<W: fmt::Write>(&self, f: &mut fmt::Formatter<W>) -> fmt::Result {
        match self {
            NoCall::UnknownName => write!(
                f,
                "before any space stands none of @collect, @accept, @decline, @terms, @left and @tells"
            ),
            NoCall::WrongFields(name) => {
                let takes = takes_text(*name);
                write!(f, "{name} {takes}")
            }
            NoCall::NotANumber { offset } => write!(
                f,
                "a number from 0 to {MOST_NUMBER} was expected at offset {offset}"
            ),
            NoCall::NotAnIdentifier(fault) => write!(
                f,
                "an identifier was expected, as 2.999 ({fault})"
            ),
        }
    }
}

impl Error for NoCall {}

// How the line of a call goes on behind its name.
fn takes_text(name: Name) -> &'static str
    ensures { result.now ≡ takes_text name }
{
    match name {
        Name::Collect => "takes a number and an identifier, with one space before each",
        Name::Tells => "stands alone on its line",
        Name::Accept | Name::Decline | Name::Terms | Name::Left => {
            "takes an identifier, with one space before it"
        }
    }
}
