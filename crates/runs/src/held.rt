// Grants that are out.
ghost use Rattle.std.specs.Prelude.{◌≡◌};
ghost use Rattle.oid.specs.Meaning.{arcs_of};
ghost use Rattle.runs.specs.Hands.{is_for};
ghost use Rattle.runs.specs.Out.{held_of};

use oid::Identifier;
use register::Grant;

// A Grant that is out, and the identifier that it was collected for.
pub struct Held {
    pub(crate) entry: Identifier,
    pub(crate) grant: Grant,
}

impl Held {
    // Whether the Grant was collected for this identifier.
    pub(crate) fn is_for(&self, entry: &Identifier) -> bool
        ensures { result ≡ is_for (arcs_of entry.now) (held_of self.now) }
    {
        self.entry == *entry
    }
}
