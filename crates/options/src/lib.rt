// Command lines: what a program is told about the register that it founds, and about the page for answers.
#![tactic(auto)]

pub mod bad_option;
mod given;
pub mod name;
pub mod options;
mod pieces;
mod reader;
#[cfg(test)]
mod tests;
mod values;
mod words;

pub use bad_option::BadOption;
pub use name::Name;
pub use options::Options;
pub use values::MOST_PAGE;
