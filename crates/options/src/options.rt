// The options of a program.

use arc_rules::{Listed, Range};
use oid::Identifier;

// What the register is founded with, and how many bytes the page for answers has.
#[derive(Drop)]
pub struct Options {
    pub root: Identifier,
    pub holder: u32,
    pub quota: u32,
    pub panels: Range,
    pub authorities: Listed,
    pub page: usize,
}
