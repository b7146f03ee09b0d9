// Parents, children, and which identifier lies below which.
ghost use Rattle.std.specs.Prelude.{◌≡◌};
ghost use Rattle.std.specs.Option.{option_map};
ghost use Rattle.oid.specs.Meaning.{arcs_of};
ghost use Rattle.oid.specs.Tree.{parent_of, child_of, at_or_below, below};

use super::{Identifier, MOST_ARCS};
use crate::arc::Arc;

impl Identifier {
    // The identifier without its last arc; none for one of two arcs.
    pub fn parent(&self) -> Option<Identifier>
        ensures { option_map arcs_of result ≡ parent_of (arcs_of self.now) }
    {
        let (_, front) = self.arcs().split_last()?;
        Identifier::from_arcs(front)
    }

    // The identifier with one arc more; none past the most arcs.
    pub fn child(&self, arc: Arc) -> Option<Identifier>
        ensures { option_map arcs_of result ≡ child_of (arcs_of self.now) arc }
    {
        if self.len >= MOST_ARCS {
            return None;
        }
        let mut arcs = self.arcs;
        arcs[self.len] = arc;
        Identifier::from_arcs(&arcs[..self.len + 1])
    }

    // Whether the other's arcs are the first arcs of this one.
    pub fn at_or_below(&self, other: &Identifier) -> bool
        ensures { result ≡ at_or_below (arcs_of self.now) (arcs_of other.now) }
    {
        self.arcs().starts_with(other.arcs())
    }

    // The same, and longer than the other.
    pub fn below(&self, other: &Identifier) -> bool
        ensures { result ≡ below (arcs_of self.now) (arcs_of other.now) }
    {
        self.at_or_below(other) && self.len > other.len
    }
}
