// DER: the bytes of an identifier by X.690, clause 8.19, with one byte for the length.
#![tactic(auto)]

mod base128;
mod header;
pub mod laws;
pub mod reader;
mod subidentifiers;
#[cfg(test)]
mod tests;
pub mod writer;

pub use reader::{read, split};
pub use writer::write;
