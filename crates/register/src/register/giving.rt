// The calls that give identifiers out.
ghost use Rattle.std.specs.Prelude.{◌≡◌, ◌<◌, ◌++◌, ◌∷◌, [], length};
ghost use Rattle.oid.specs.Meaning.{arcs_of};
ghost use Rattle.oid.specs.Tree.{most_arcs};
ghost use Rattle.book.specs.Calls.{grant, claim, offer};
ghost use Rattle.book.specs.Questions.{ruling};
ghost use Rattle.register.specs.Registers.{book_of, rules_of, answer_named, Follows, KeepsRest};

use super::Register;
use crate::row::Row;
use arc_rules::{ArcRule, has_arc};
use book::{Kind, Refusal};
use oid::{Arc, Identifier};

impl<P: ArcRule, A: ArcRule> Register<P, A> {
    // A panel below an authority, at the lowest free arc.
    pub(crate) fn grant(
        &mut self,
        holder: u32,
        authority: &Identifier,
    ) -> Result<Identifier, Refusal>
        ensures ruling { Follows (ruling (rules_of P.means A.means self.old) (book_of self.old) (grant holder (arcs_of authority.now))) (book_of self.old) (answer_named result) (book_of self.new) }
        ensures rest { KeepsRest self.old self.new }
    {
        let giver = self.as_giver(holder, authority, 0)?;
        let Some(arc) = self.panel_arc(authority) else {
            return Err(Refusal::NoArc);
        };
        self.enter(Row {
            identifier: below(authority, arc),
            kind: Kind::Panel,
            holder: giver.holder,
            quota: 0,
        })
    }

    // A panel below an authority, at the arc that the caller asks for.
    pub(crate) fn claim(
        &mut self,
        holder: u32,
        authority: &Identifier,
        arc: Arc,
    ) -> Result<Identifier, Refusal>
        ensures ruling { Follows (ruling (rules_of P.means A.means self.old) (book_of self.old) (claim holder (arcs_of authority.now) arc)) (book_of self.old) (answer_named result) (book_of self.new) }
        ensures rest { KeepsRest self.old self.new }
    {
        let giver = self.as_giver(holder, authority, 0)?;
        if !has_arc(&self.panels, arc) {
            return Err(Refusal::NoArc);
        }
        if self.is_taken(authority, arc) {
            return Err(Refusal::ArcTaken);
        }
        self.enter(Row {
            identifier: below(authority, arc),
            kind: Kind::Panel,
            holder: giver.holder,
            quota: 0,
        })
    }

    // An authority below an authority, at the lowest free arc, with a quota, offered to the taker.
    pub(crate) fn offer(
        &mut self,
        holder: u32,
        authority: &Identifier,
        quota: u32,
        taker: u32,
    ) -> Result<Identifier, Refusal>
        ensures ruling { Follows (ruling (rules_of P.means A.means self.old) (book_of self.old) (offer holder (arcs_of authority.now) quota taker)) (book_of self.old) (answer_named result) (book_of self.new) }
        ensures rest { KeepsRest self.old self.new }
    {
        self.as_giver(holder, authority, quota)?;
        let Some(arc) = self.offer_arc(authority) else {
            return Err(Refusal::NoArc);
        };
        self.enter(Row {
            identifier: below(authority, arc),
            kind: Kind::Offered,
            holder: taker,
            quota,
        })
    }
}

// The identifier below an authority with an arc more.
fn below(authority: &Identifier, arc: Arc) -> Identifier
    requires { length (arcs_of authority.now) < most_arcs }
    ensures { arcs_of result ≡ arcs_of authority.now ++ arc ∷ [] }
{
    // An authority with room below it has a child with every arc.
    let Some(identifier) = authority.child(arc) else {
        unreachable!()
    };
    identifier
}
