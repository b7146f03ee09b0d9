// A rule made outside `arc_rules`.
ghost use Rattle.std.specs.Prelude.{◌≡◌};
ghost use Rattle.piles.specs.Even.{even};

use arc_rules::ArcRule;
use oid::{Arc, arc_of};

// The even arcs.
#[derive(Clone, Copy)]
pub struct EvenArcs;

impl EvenArcs {
    pub fn new() -> Self
        ensures set { (⟦<EvenArcs as ArcRule>⟧.means result).set ≡ even }
    {
        EvenArcs
    }
}

impl ArcRule for EvenArcs {
    ghost means = { λ _. record { set = even } };

    fn lowest_from(&self, asked: Arc) -> Option<Arc> {
        arc_of(u64::from(asked) + u64::from(asked % 2))
    }
}
