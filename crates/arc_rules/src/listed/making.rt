// Listed rules made, and what they tell of that.
ghost use Rattle.std.specs.Prelude.{◌≡◌, ◌≢◌, Some, IfSome};
ghost use Rattle.arc_rules.specs.Kept.{listed_set, refusal_of};
ghost use Rattle.arc_rules.specs.Listed.{ascending, listed_refusal};
ghost use Rattle.arc_rules.specs.Refusals.{told_number, unless_refused};
ghost use Rattle.arc_rules.specs.Sets.{among, no_arc};
ghost use Rattle.arc_rules.specs.declared.refusal.RuleRefusal.TheVariants.{UnfitList};

use crate::listed::Listed;
use crate::refusal::RuleRefusal;
use crate::rule::ArcRule;
use arrayvec::ArrayVec;
use oid::Arc;

impl Listed {
    // The rule with these arcs. Are they strictly ascending, and no more than LISTED_MOST? If not, it is refused, and
    // has no arc.
    pub fn new(arcs: &[Arc]) -> Self
        ensures set { (⟦<Listed as ArcRule>⟧.means result).set ≡ unless_refused (listed_refusal arcs.now) (among arcs.now) }
        ensures refusal { refusal_of result ≡ listed_refusal arcs.now }
    {
        if !ascending(arcs) {
            return Listed::refused();
        }
        match ArrayVec::try_from(arcs) {
            Ok(own) => Listed {
                arcs: own,
                refused_for: None,
            },
            Err(_) => Listed::refused(),
        }
    }

    // What a refused list makes.
    fn refused() -> Self
        ensures empty { listed_set result ≡ no_arc }
        ensures refusal { refusal_of result ≡ Some UnfitList }
    {
        Listed {
            arcs: ArrayVec::new(),
            refused_for: Some(RuleRefusal::UnfitList),
        }
    }

    // Why the list was refused, if it was; the rule then has no arc.
    pub fn refusal(&self) -> Option<RuleRefusal>
        ensures value { result ≡ refusal_of self.now }
        ensures empty { IfSome result (λ _. (⟦<Listed as ArcRule>⟧.means self.now).set ≡ no_arc) }
    {
        self.refused_for
    }

    // The number of that refusal; 0 where there is none.
    pub fn tells(&self) -> u8
        ensures value { result ≡ told_number (refusal_of self.now) }
        ensures empty { result ≢ 0 → (⟦<Listed as ArcRule>⟧.means self.now).set ≡ no_arc }
    {
        self.refusal().map_or(0, RuleRefusal::number)
    }
}

fn ascending(arcs: &[Arc]) -> bool
    ensures { result ≡ ascending arcs.now }
{
    arcs.is_sorted_by(|arc, next| *arc < *next)
}
