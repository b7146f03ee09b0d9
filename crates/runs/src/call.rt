// What is sent to a desk, and what comes back.
use book::Refusal;
use oid::Identifier;
use register::Terms;

// A call: a request line, without its end; or one that no line makes, by the identifier that it names. An accept and a decline here are
// those of a Grant, and made with the one that the desk keeps for the identifier.
#[derive(Clone, Copy)]
pub enum Call<'a> {
    Line(&'a [u8]),
    Collect { taker: u32, entry: &'a Identifier },
    Accept(&'a Identifier),
    Decline(&'a Identifier),
}

// What comes back of a call: for a line that its page is too short, which is 9, or how much of the page is written; for the other calls the terms of
// the Grant, which the desk keeps; that it is done; or a refusal.
#[derive(Clone, Copy, PartialEq, Eq, Debug)]
pub enum Back {
    TooShort,
    Written(usize),
    Handed(Terms),
    Done,
    Refused(Refusal),
}
