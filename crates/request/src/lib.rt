// Request lines: from the bytes of a line to a request, and from an answer to the bytes of a page.
#![tactic(auto)]

pub mod answer;
pub mod child;
mod field;
mod fields;
pub mod laws;
pub mod limits;
pub mod page;
pub mod part;
pub mod reader;
pub mod refusal;
pub mod request;
mod roll;
#[cfg(test)]
mod tests;
mod verb;
pub mod words;
pub mod written;

pub use answer::write_first_line;
pub use child::Child;
pub use limits::{LEAST_LINE, MOST_LINE};
pub use page::{LEAST_PAGE, LEAST_REST, PageRefusal};
pub use part::{Part, Parts};
pub use reader::read;
pub use refusal::{Fault, LineRefusal, Refusal};
pub use request::{Reading, Request};
pub use written::Written;
