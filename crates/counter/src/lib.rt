// Counter calls: from the bytes of a line to a call.
#![tactic(auto)]

pub mod call;
pub mod laws;
pub mod name;
pub mod no_call;
pub mod reader;
#[cfg(test)]
mod tests;
mod words;

pub use call::CounterCall;
pub use name::Name;
pub use no_call::NoCall;
pub use reader::{is_counter, read};
