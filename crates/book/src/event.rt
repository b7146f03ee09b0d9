// What changes the kind of an entry.

// The calls that do. The last two spend a Grant.
#[derive(Clone, Copy, PartialEq, Eq, Debug)]
pub enum Event {
    Accept,
    Decline,
    Retire,
    Collect,
    AcceptGrant,
    DeclineGrant,
}
