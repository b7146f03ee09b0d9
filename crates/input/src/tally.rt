// How many lines there were, and how many of them were not good.
ghost use Rattle.std.specs.Prelude.{◌≡◌, Some};
ghost use Rattle.input.specs.Counting.{counted, none_counted, counts_said};

use std::fmt;

// The counts; one that can grow no more stays.
#[derive(Clone, Copy, Debug)]
pub struct Tally {
    pub read: u64,
    pub refused: u64,
}

impl Tally {
    // A tally that has counted no line yet.
    pub fn new() -> Tally
        ensures { result ≡ none_counted }
    {
        Tally {
            read: 0,
            refused: 0,
        }
    }

    // Counts a line, which is good or not.
    pub fn count(&mut self, is_good: bool)
        ensures { self.new ≡ counted is_good self.old }
    {
        self.read = self.read.saturating_add(1);
        if !is_good {
            self.refused = self.refused.saturating_add(1);
        }
    }
}

impl fmt::Display for Tally {
    ghost output = { λ tally. Some (counts_said tally) };

    fn fmt<W: fmt::Write>(&self, f: &mut fmt::Formatter<W>) -> fmt::Result {
        let Tally { read, refused } = self;
        write!(f, "{read} read, {refused} refused")
    }
}
