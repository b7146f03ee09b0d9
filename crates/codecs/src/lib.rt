// Object identifiers and both of their notations, under one name each.
#![tactic(auto)]

pub mod laws;
pub mod notation;
pub mod text;

pub use der::{read as read_der, split as split_der, write as write_der};
pub use dotted::{read as read_dotted, write as write_dotted};
pub use notation::{Der, Dotted, Notation, PAGE_LIMIT};
pub use oid::{Arc, Fault, Identifier, Refusal};
pub use text::{Described, Text};
