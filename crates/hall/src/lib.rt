// What the programs that found a register share: the founding that their options tell, and lines of input, served by a desk and answered
// as they come.
#![tactic(auto)]

pub mod beginning;
pub mod lines;
pub mod serving;

pub use beginning::{founding, tell_refusal};
pub use lines::serve_line;
pub use serving::serve_lines;
