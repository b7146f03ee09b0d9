// The book of a register as definitions: entries, calls and their questions, runs, and laws of these, above all the one over every run.
// And the types and numbers of it that code shares: kinds, events, refusals, the ranges of holders and quotas.
#![tactic(auto)]

pub mod event;
pub mod founding;
pub mod kind;
pub mod laws;
pub mod ranges;
pub mod refusal;
pub mod words;

pub use event::Event;
pub use founding::FoundingRefusal;
pub use kind::Kind;
pub use ranges::{FIRST_HOLDER, LAST_HOLDER, MOST_QUOTA};
pub use refusal::Refusal;
