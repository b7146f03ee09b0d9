// Arcs held back from another rule.
ghost use Rattle.std.specs.Prelude.{◌≡◌};
ghost use Rattle.arc_rules.specs.Kept.{layer_set};
ghost use Rattle.arc_rules.specs.Sets.{without};

use crate::rule::ArcRule;
use oid::{Arc, next_arc};

// A layer over any rule, another layer too: the arcs of that rule without those from the first to the last.
#[derive(Clone, Copy, Drop)]
pub struct HeldBack<R> {
    below: R,
    first: Arc,
    last: Arc,
}

impl<R: ArcRule> HeldBack<R> {
    // The layer over a rule, which leaves out no arc where the first is above the last.
    pub fn over(below: R, first: Arc, last: Arc) -> Self
        ensures set { (⟦<HeldBack<R> as ArcRule>⟧.means result).set ≡ without first last (R.means below).set }
    {
        HeldBack { below, first, last }
    }
}

impl<R: ArcRule> ArcRule for HeldBack<R> {
    ghost means = { λ layer. record { set = layer_set (λ below. (R.means below).set) layer } };

    fn lowest_from(&self, asked: Arc) -> Option<Arc> {
        let found = self.below.lowest_from(asked)?;
        if found < self.first || self.last < found {
            return Some(found);
        }
        let beyond = next_arc(self.last)?;
        self.below.lowest_from(beyond)
    }
}
