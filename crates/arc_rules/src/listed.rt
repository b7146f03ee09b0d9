// The rule of arcs that are listed one by one.
ghost use Rattle.std.specs.Prelude.{◌≡◌, true, []};
ghost use Rattle.std.specs.Option.{ForSome};
ghost use Rattle.arc_rules.specs.Listed.{ascending};

mod asking;
mod making;

use crate::refusal::RuleRefusal;
use arrayvec::ArrayVec;
use oid::Arc;

// The most arcs that a rule may list.
pub const LISTED_MOST: usize = 32;

// A rule with arcs of its own.
#[derive(Drop)]
pub struct Listed {
    arcs: ArrayVec<Arc, LISTED_MOST>,
    refused_for: Option<RuleRefusal>,
    ghost rising: { ascending arcs.items ≡ true },
    ghost emptied: { ForSome refused_for (λ _. arcs.items ≡ []) },
}
