// What is wrong with a command line, in words.
ghost use Rattle.std.specs.Prelude.{Some};
ghost use Rattle.options.specs.Names.{name_text};
ghost use Rattle.options.specs.Words.{words_of};

use crate::bad_option::BadOption;
use crate::name::Name;
use std::error::Error;
use std::fmt;

impl fmt::Display for Name {
    ghost output = { λ name. Some (name_text name) };

    fn fmt<W: fmt::Write>(&self, f: &mut fmt::Formatter<W>) -> fmt::Result {
        let text = self.text();
        write!(f, "{text}")
    }
}

// Which argument is wrong, and what was expected.
impl fmt::Display for BadOption {
    ghost output = { λ bad. Some (words_of bad) };

    fn fmt<W: fmt::Write>(&self, f: &mut fmt::Formatter<W>) -> fmt::Result {
        match self {
            BadOption::Unknown { index } => write!(
                f,
                "argument {index}: one of --root, --holder, --quota, --panels, --authorities and --page was expected"
            ),
            BadOption::NoValue(option) => { write!(f, "{option}: a value was expected after it") }
            BadOption::Twice(option) => write!(f, "{option}: it was given twice"),
            BadOption::NotAnIdentifier(fault) => write!(
                f,
                "--root: an identifier was expected, as 2.999 ({fault})"
            ),
            BadOption::NotANumber { option, most } => {
                write!(f, "{option}: a number from 0 to {most} was expected")
            }
            BadOption::NotARange => write!(
                f,
                "--panels: two arcs with - between them were expected, as 100-102"
            ),
            BadOption::NotAList => write!(
                f,
                "--authorities: arcs with a comma between neighbours were expected, as 1,3,5"
            ),
        }
    }
}

impl Error for BadOption {}
