// The identifier: a value whose type carries the tree's rule.
ghost use Rattle.std.specs.Prelude.{◌≡◌, ◌-◌, ◌≤◌, true, length, take, drop, replicate};
ghost use Rattle.oid.specs.Tree.{is_identifier, most_arcs};

use crate::arc::Arc;

mod family;
mod making;
pub mod same;

// No identifier has fewer arcs.
pub const FEWEST_ARCS: usize = 2;

// No identifier has more arcs.
pub const MOST_ARCS: usize = 16;

// The roots of the tree are 0, 1 and 2.
pub const LAST_ROOT: Arc = 2;

// Under the roots 0 and 1 no second arc is larger.
pub const LAST_SECOND: Arc = 39;

// A list of 2 to 16 arcs that keeps the tree's rule. Places past the length hold 0, so that two
// identifiers with the same arcs are the same value.
#[derive(Clone, Copy)]
pub struct Identifier {
    arcs: [Arc; MOST_ARCS],
    len: usize,
    ghost places: { length arcs ≡ most_arcs },
    ghost within: { len ≤ most_arcs },
    ghost rule: { is_identifier (take len arcs) ≡ true },
    ghost rest: { drop len arcs ≡ replicate (most_arcs - len) 0 },
}
