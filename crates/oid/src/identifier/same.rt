// Equality of identifiers: they are equal exactly when their arcs are.
ghost use Rattle.std.specs.Prelude.{◌≡◌, Decides};
ghost use Rattle.std.specs.Cmp.{on_equiv, partial_equiv_from_equiv};
ghost use Rattle.std.specs.Cmp.Lexicographic.{nat_list_eq_equiv};
ghost use Rattle.oid.specs.Equality.{same_arcs, EqualityDecides};
ghost use Rattle.oid.specs.Meaning.{arcs_of};

use super::Identifier;

impl PartialEq for Identifier {
    ghost eq = { same_arcs };

    ghost laws = { partial_equiv_from_equiv (on_equiv arcs_of nat_list_eq_equiv) };

    fn eq(&self, other: &Identifier) -> bool
        ensures value { result ≡ same_arcs self.now other.now }
        ensures decides { Decides result (self.now ≡ other.now) × Decides result (arcs_of self.now ≡ arcs_of other.now) }
    {
        self.arcs() == other.arcs()
    }
}

impl Eq for Identifier {
    ghost laws = { on_equiv arcs_of nat_list_eq_equiv };
}

// What `==` computes decides equality; so `!=` and code that compares identifiers by the trait alone decide it too.
pub fn equality_decides()
    ensures { EqualityDecides }
{}
