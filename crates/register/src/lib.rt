// The register: founded, sent request lines, Grants collected and spent, and what it tells. What the book means, and what holds of every run,
// stands in `book`.
#![tactic(auto)]

pub mod founding;
pub mod grant;
pub mod register;
mod row;
mod standing;
#[cfg(test)]
mod tests;
mod yes;

pub use founding::Founding;
pub use grant::{Grant, Terms, Unspent};
pub use register::{MOST_ENTRIES, Register};
