// Listed rules asked.
ghost use Rattle.std.specs.Prelude.{◌≡◌, true};
ghost use Rattle.arc_rules.specs.Kept.{listed_set};
ghost use Rattle.arc_rules.specs.Listed.{ascending};
ghost use Rattle.arc_rules.specs.Lowest.{IsLowest};
ghost use Rattle.arc_rules.specs.Sets.{among};

use crate::listed::Listed;
use crate::rule::ArcRule;
use oid::Arc;

impl ArcRule for Listed {
    ghost means = { λ listed. record { set = listed_set listed } };

    fn lowest_from(&self, asked: Arc) -> Option<Arc> {
        first_from(&self.arcs, asked)
    }
}

// The first of ascending arcs that is not below the one asked for.
fn first_from(arcs: &[Arc], asked: Arc) -> Option<Arc>
    requires { ascending arcs.now ≡ true }
    ensures { IsLowest (among arcs.now) asked result }
{
    arcs.iter().copied().find(|arc| *arc >= asked)
}
