// All lines compared, up to the first that differs.
ghost use Rattle.std.specs.Prelude.{[], Some};
ghost use Rattle.conformance.specs.Comparing.{Compared};
ghost use Rattle.conformance.specs.Output.{comparison_text};

use crate::difference::Difference;
use std::fmt;

// How many lines agreed before the first that differs, and how that one does.
#[derive(Clone, Copy)]
pub struct Comparison {
    pub agreed: u64,
    pub first: Option<Difference>,
}

impl Comparison {
    // A comparison that was given no line yet.
    pub fn new() -> Comparison
        ensures { Compared result [] }
    {
        Comparison {
            agreed: 0,
            first: None,
        }
    }
}

impl fmt::Display for Comparison {
    ghost output = { λ comparison. Some (comparison_text comparison) };

    fn fmt<W: fmt::Write>(&self, f: &mut fmt::Formatter<W>) -> fmt::Result {
        let Comparison { agreed, first } = self;
        write!(f, "{agreed} encodings agreed")?;
        if let Some(difference) = first {
            let number = agreed.saturating_add(1);
            write!(f, "\nline {number} differs: {difference}")?;
        }
        Ok(())
    }
}
