// Dotted text: identifiers as decimal arcs with dots between them, with or without the prefix of RFC 3061.
#![tactic(auto)]

pub mod decimal;
mod form;
pub mod laws;
pub mod pieces;
mod prefix;
pub mod reader;
#[cfg(test)]
mod tests;
pub mod writer;

pub use reader::read;
pub use writer::{TEXT_LIMIT, write};
