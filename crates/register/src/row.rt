// The rows of a register.
ghost use Rattle.std.specs.Prelude.{◌≡◌, ◌≤◌, ◌^◌, is_some};
ghost use Rattle.oid.specs.Meaning.{arcs_of};
ghost use Rattle.book.specs.Book.{is_at, is_child, arc_of_child};
ghost use Rattle.book.specs.Changes.{turned_entry};
ghost use Rattle.request.specs.Answers.{child_of};
ghost use Rattle.register.specs.Kept.{entry_of, has_arc};
ghost use Rattle.book.specs.Kinds.{next_kind};
ghost use Rattle.book.specs.Left.{counted};

use book::{Event, Kind};
use oid::{Arc, Identifier};
use request::Child;

// An entry, as the register keeps it.
#[derive(Clone, Copy)]
pub(crate) struct Row {
    pub(crate) identifier: Identifier,
    pub(crate) kind: Kind,
    pub(crate) holder: u32,
    pub(crate) quota: u32,
}

impl Row {
    // Whether it has this identifier.
    pub(crate) fn is_at(&self, identifier: &Identifier) -> bool
        ensures { result ≡ is_at (arcs_of identifier.now) (entry_of self.now) }
    {
        self.identifier == *identifier
    }

    // Whether its parent is the authority.
    pub(crate) fn is_child(&self, authority: &Identifier) -> bool
        ensures { result ≡ is_child (arcs_of authority.now) (entry_of self.now) }
    {
        let Some((_, front)) = self.identifier.arcs().split_last() else {
            return false;
        };
        front == authority.arcs()
    }

    // The last of its arcs.
    #[tactic(auto, using(oid::proofs::Tree::some_arcs))]
    pub(crate) fn arc(&self) -> Arc
        ensures { result ≡ arc_of_child (entry_of self.now) }
    {
        let arcs = self.identifier.arcs();
        arcs[arcs.len() - 1]
    }

    // Whether it is a child of the authority and has the arc. The arc is compared first: it is one number, an identifier up to 16.
    pub(crate) fn has_arc(&self, authority: &Identifier, arc: Arc) -> bool
        ensures { result ≡ has_arc (arcs_of authority.now) arc (entry_of self.now) }
    {
        self.arc() == arc && self.is_child(authority)
    }

    // What a roll shows of it.
    pub(crate) fn child(&self) -> Child
        ensures { result ≡ child_of (entry_of self.now) }
    {
        Child {
            arc: self.arc(),
            kind: self.kind,
            holder: self.holder,
            quota: self.quota,
        }
    }

    // What it has used up of the quota of the authority above it.
    pub(crate) fn counted(&self) -> u64
        ensures value { result ≡ counted (entry_of self.now) }
        ensures bound { result ≤ 2 ^ 32 }
    {
        match self.kind {
            Kind::Offered | Kind::InHand | Kind::Open => 1 + u64::from(self.quota),
            Kind::Panel | Kind::Retired | Kind::Declined => 1,
        }
    }

    // Changes the kind as the event does, and tells whether the event changes an entry of the kind that it had.
    pub(crate) fn turn(&mut self, event: Event) -> bool
        ensures entry { entry_of self.new ≡ turned_entry event (entry_of self.old) }
        ensures answer { result ≡ is_some (next_kind self.old.kind event) }
    {
        match (self.kind, event) {
            (Kind::Offered, Event::Accept) => self.kind = Kind::Open,
            (Kind::Offered, Event::Decline) => self.kind = Kind::Declined,
            (Kind::Offered, Event::Collect) => self.kind = Kind::InHand,
            (Kind::InHand, Event::AcceptGrant) => self.kind = Kind::Open,
            (Kind::InHand, Event::DeclineGrant) => self.kind = Kind::Declined,
            (Kind::Panel, Event::Retire) => self.kind = Kind::Retired,
            _ => return false,
        }
        true
    }
}
