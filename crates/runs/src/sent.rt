// What is sent to a desk, and what comes back, where lists of both are kept.
use book::Refusal;
use oid::Identifier;
use register::Terms;

// What is sent: a line, with its own page; or one of the calls that no line makes.
#[derive(Drop)]
pub enum Sent {
    Line { bytes: Vec<u8>, page: Vec<u8> },
    Collect { taker: u32, entry: Identifier },
    Accept { entry: Identifier },
    Decline { entry: Identifier },
}

// What comes back: of a line that its page is too short, which is 9, or the bytes that were written; of the other calls what the desk answers.
#[derive(Drop)]
pub enum Said {
    TooShort,
    Written(Vec<u8>),
    Handed(Terms),
    Done,
    Refused(Refusal),
}
