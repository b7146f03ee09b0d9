// Runs of a register: a desk keeps the Grants that its register hands out, and makes one call after the other.
#![tactic(auto)]

pub mod call;
pub mod desk;
mod held;
pub mod replaying;
pub mod sent;
#[cfg(test)]
mod tests;

pub use call::{Back, Call};
pub use desk::Desk;
pub use replaying::{Replayed, replay};
pub use sent::{Said, Sent};
