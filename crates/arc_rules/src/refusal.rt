// Why what a rule was to be made from was refused.
ghost use Rattle.std.specs.Prelude.{◌≡◌, Some};
ghost use Rattle.arc_rules.specs.Refusals.{number_of, words_of};

use crate::listed::LISTED_MOST;
use std::error::Error;
use std::fmt;

// The refusals of arc rules. The number is what a rule tells.
#[derive(Clone, Copy, PartialEq, Eq, Debug)]
pub enum RuleRefusal {
    UnfitList = 27,
}

impl RuleRefusal {
    // The number that the refusal is told by.
    pub fn number(self) -> u8
        ensures { result ≡ number_of self }
    {
        self as u8
    }
}

// What is wrong.
impl fmt::Display for RuleRefusal {
    ghost output = { λ refusal. Some (words_of refusal) };

    fn fmt<W: fmt::Write>(&self, f: &mut fmt::Formatter<W>) -> fmt::Result {
        match self {
            RuleRefusal::UnfitList => write!(
                f,
                "the listed arcs are not strictly ascending, or more than {LISTED_MOST}"
            ),
        }
    }
}

impl Error for RuleRefusal {}
