// Why a line is no counter call.
use crate::name::Name;
use oid::Fault;

// In the order of the questions. Offsets are those in the line.
#[derive(Clone, Copy, PartialEq, Eq, Debug)]
pub enum NoCall {
    // What stands before any space is no name.
    UnknownName,
    // The fields are not as many as the call takes.
    WrongFields(Name),
    // The field that begins at the offset is not a number of 32 bits.
    NotANumber { offset: usize },
    // A field is not an identifier, with what is wrong in it and where.
    NotAnIdentifier(Fault),
}
