// An identifier from its arcs, and its arcs back.
ghost use Rattle.std.specs.Prelude.{◌≡◌, ◌-◌, ◌≤◌, true, [], ◌∷◌, ◌++◌, length, replicate};
ghost use Rattle.std.specs.Option.{option_map};
ghost use Rattle.oid.specs.Meaning.{arcs_of};
ghost use Rattle.oid.specs.Tree.{most_arcs, all_arcs, starts_well, is_identifier, identified};

use super::{FEWEST_ARCS, Identifier, LAST_ROOT, LAST_SECOND, MOST_ARCS};
use crate::arc::{Arc, arc_of};

impl Identifier {
    // The identifier with these arcs; none where they break the tree's rule.
    pub fn from_arcs(arcs: &[Arc]) -> Option<Identifier>
        ensures { option_map arcs_of result ≡ identified arcs.now }
    {
        if !keeps_rule(arcs) {
            return None;
        }
        let len = arcs.len();
        Some(Identifier {
            arcs: filled_up(arcs),
            len,
        })
    }

    // The identifier 0.0: something for a reader to fill.
    pub fn smallest() -> Identifier
        ensures { arcs_of result ≡ 0 ∷ 0 ∷ [] }
    {
        Identifier {
            arcs: [0; MOST_ARCS],
            len: FEWEST_ARCS,
        }
    }

    // The arcs in order. They keep the rule, and no other identifier has the same.
    pub fn arcs(&self) -> &[Arc]
        ensures value { result.now ≡ arcs_of self.now }
        ensures rule { is_identifier result.now ≡ true }
        ensures only { (other : Identifier) → arcs_of other ≡ result.now → other ≡ self.now }
    {
        &self.arcs[..self.len]
    }

    // How many arcs there are.
    pub fn len(&self) -> usize
        ensures { result ≡ length (arcs_of self.now) }
    {
        self.len
    }
}

// The arcs, and 0 in every place after them.
fn filled_up(arcs: &[Arc]) -> [Arc; MOST_ARCS]
    requires { length arcs.now ≤ most_arcs }
    ensures { result ≡ arcs.now ++ replicate (most_arcs - length arcs.now) 0 }
{
    let mut places = [0; MOST_ARCS];
    places[..arcs.len()].copy_from_slice(arcs);
    places
}

fn keeps_rule(arcs: &[Arc]) -> bool
    ensures { result ≡ is_identifier arcs.now }
{
    arcs.len() >= FEWEST_ARCS
        && arcs.len() <= MOST_ARCS
        && starts_well(arcs[0], arcs[1])
        && all_arcs(arcs)
}

fn starts_well(first: Arc, second: Arc) -> bool
    ensures { result ≡ starts_well first second }
{
    first == LAST_ROOT || first < LAST_ROOT && second <= LAST_SECOND
}

#[tactic(auto, unfolding(crate::specs::Tree::all_arcs))]
fn all_arcs(numbers: &[Arc]) -> bool
    ensures { result ≡ all_arcs numbers.now }
{
    numbers
        .iter()
        .all(|number| arc_of(u64::from(*number)).is_some())
}
