// What the programs share: lines of input in memory that does not grow with them, checked, counted and answered; their
// fields; and pairs of hexadecimal digits.
#![tactic(auto)]

pub mod checking;
pub mod closing;
pub mod content;
pub mod feed;
pub mod fields;
pub mod hex;
pub mod laws;
pub mod line;
pub mod shown;
pub mod tally;
#[cfg(test)]
mod tests;

pub use checking::{Checker, check_lines};
pub use closing::close;
pub use content::{MOST_PAIRS, Unpaired, content_in, content_of};
pub use feed::{LineTaker, read_lines};
pub use fields::split_field;
pub use line::{LINE_LIMIT, Line};
pub use shown::{Pairs, TooLong};
pub use tally::Tally;
