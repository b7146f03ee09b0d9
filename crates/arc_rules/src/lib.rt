// Arc rules: sets of arcs, each behind one question; and layers over them.
#![tactic(auto)]

pub mod held_back;
pub mod laws;
pub mod listed;
pub mod range;
pub mod refusal;
pub mod rule;

pub use held_back::HeldBack;
pub use listed::{LISTED_MOST, Listed};
pub use range::Range;
pub use refusal::RuleRefusal;
pub use rule::{ArcRule, has_arc};
