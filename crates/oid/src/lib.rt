// Object identifiers: arcs, the tree's rule, and what every notation of identifiers shares.
#![tactic(auto)]

pub mod arc;
pub mod collector;
pub mod identifier;
pub mod numeral;
pub mod page;
pub mod refusal;
#[cfg(test)]
mod tests;
mod words;

pub use arc::{ARC_LIMIT, Arc, arc_of, next_arc};
pub use collector::Collector;
pub use identifier::Identifier;
pub use numeral::Numeral;
pub use page::fits;
pub use refusal::{Fault, Refusal};
