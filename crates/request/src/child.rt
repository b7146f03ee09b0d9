// What a roll shows of a child.
ghost use Rattle.std.specs.Prelude.{◌≡◌};
ghost use Rattle.request.specs.Answers.{kind_word};

use book::Kind;
use oid::Arc;

// A child of the roll's authority: its arc, its kind, its holder and its quota. Of panels, retired or not, the last two are not shown.
#[derive(Clone, Copy, PartialEq, Eq, Debug)]
pub struct Child {
    pub arc: Arc,
    pub kind: Kind,
    pub holder: u32,
    pub quota: u32,
}

// The word for a kind.
pub(crate) fn kind_word(kind: Kind) -> &'static [u8]
    ensures { result.now ≡ kind_word kind }
{
    match kind {
        Kind::Panel => b"panel",
        Kind::Retired => b"retired",
        Kind::Offered => b"offered",
        Kind::InHand => b"inhand",
        Kind::Open => b"open",
        Kind::Declined => b"declined",
    }
}
