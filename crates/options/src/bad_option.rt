// Why a command line is refused.
use crate::name::Name;
use oid::Fault;

#[derive(Clone, Copy, PartialEq, Eq, Debug)]
pub enum BadOption {
    // The word at this index, where an option's name is expected, is none. The program's own name has index 0.
    Unknown { index: usize },
    // The option is the last word, so that it has no value.
    NoValue(Name),
    Twice(Name),
    // The value of --root, with what is wrong in it and where.
    NotAnIdentifier(Fault),
    // The value of an option that takes a number from 0 to the most.
    NotANumber { option: Name, most: u32 },
    // The value of --panels.
    NotARange,
    // The value of --authorities.
    NotAList,
}
