// The rule of the arcs between two.
ghost use Rattle.std.specs.Prelude.{◌≡◌};
ghost use Rattle.arc_rules.specs.Kept.{range_set};
ghost use Rattle.arc_rules.specs.Sets.{from_to};

use crate::rule::ArcRule;
use oid::Arc;

// The arcs from the first to the last; none where the first is above the last.
#[derive(Clone, Copy)]
pub struct Range {
    first: Arc,
    last: Arc,
}

impl Range {
    pub fn new(first: Arc, last: Arc) -> Self
        ensures set { (⟦<Range as ArcRule>⟧.means result).set ≡ from_to first last }
    {
        Range { first, last }
    }
}

impl ArcRule for Range {
    ghost means = { λ range. record { set = range_set range } };

    fn lowest_from(&self, asked: Arc) -> Option<Arc> {
        let lowest = asked.max(self.first);
        if lowest <= self.last {
            Some(lowest)
        } else {
            None
        }
    }
}
