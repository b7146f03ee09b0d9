// Counter calls: lines that have been read.
use oid::Identifier;

// What is asked at the counter.
#[derive(Clone, Copy, PartialEq, Eq)]
pub enum CounterCall {
    // the grant of an offered entry handed to its taker
    Collect { taker: u32, entry: Identifier },
    // the grant in hand spent: its entry opened
    Accept { entry: Identifier },
    // the grant in hand spent: its entry declined
    Decline { entry: Identifier },
    // what the grant in hand says
    Terms { entry: Identifier },
    // how much of the entry's quota is left
    Left { entry: Identifier },
    // what is told of the register
    Tells,
}
