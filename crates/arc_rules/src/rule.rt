// What an arc rule is.
ghost use Rattle.std.specs.Prelude.{◌≡◌};
ghost use Rattle.arc_rules.specs.Rules.{Meaning, Answers};

use oid::Arc;

// A rule about arcs: it stands for a set of them, which no question changes, and answers one question about it.
pub trait ArcRule {
    // the set that it stands for, in the record of all that it means
    ghost means: { Self → Meaning };

    // The lowest arc of the set that is not below the one asked for; none where there is none.
    fn lowest_from(&self, asked: Arc) -> Option<Arc>
        ensures answers { Answers (means self.now) asked result };
}

// Whether an arc is in a rule's set.
pub fn has_arc<R: ArcRule>(rule: &R, arc: Arc) -> bool
    ensures { result ≡ (R.means rule.now).set arc }
{
    rule.lowest_from(arc) == Some(arc)
}
