// The arcs that no child of an authority has.
ghost use Rattle.std.specs.Prelude.{◌≡◌};
ghost use Rattle.oid.specs.Meaning.{arcs_of};
ghost use Rattle.book.specs.Book.{children, is_taken};
ghost use Rattle.book.specs.Free.{free_arc};
ghost use Rattle.register.specs.Registers.{book_of, rules_of};

use super::Register;
use arc_rules::ArcRule;
use oid::{Arc, Identifier, next_arc};

impl<P: ArcRule, A: ArcRule> Register<P, A> {
    // The lowest arc of the rule for panels that no child of an authority has.
    pub(crate) fn panel_arc(&self, authority: &Identifier) -> Option<Arc>
        ensures { result ≡ free_arc (rules_of P.means A.means self.now).panels.set (children (arcs_of authority.now) (book_of self.now)) }
    {
        self.free_arc(&self.panels, authority)
    }

    // The lowest arc of the rule for authorities that no child of an authority has.
    pub(crate) fn offer_arc(&self, authority: &Identifier) -> Option<Arc>
        ensures { result ≡ free_arc (rules_of P.means A.means self.now).authorities.set (children (arcs_of authority.now) (book_of self.now)) }
    {
        self.free_arc(&self.authorities, authority)
    }
}

impl<P, A> Register<P, A> {
    // The lowest arc of a rule that no child of an authority has.
    fn free_arc<R: ArcRule>(&self, rule: &R, authority: &Identifier) -> Option<Arc>
        ensures { result ≡ free_arc (R.means rule.now).set (children (arcs_of authority.now) (book_of self.now)) }
    {
        let mut asked = 0;
        loop {
            let Some(arc) = rule.lowest_from(asked) else {
                break None;
            };
            if !self.is_taken(authority, arc) {
                break Some(arc);
            }
            let Some(next) = next_arc(arc) else {
                break None;
            };
            asked = next;
        }
    }

    // Whether some child of an authority has an arc.
    pub(crate) fn is_taken(&self, authority: &Identifier, arc: Arc) -> bool
        ensures { result ≡ is_taken arc (children (arcs_of authority.now) (book_of self.now)) }
    {
        self.rows.iter().any(|row| row.has_arc(authority, arc))
    }
}
