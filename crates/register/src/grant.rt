// Grants: what a collect gives, and what an accept or a decline spends.
ghost use Rattle.std.specs.Prelude.{◌≡◌};

use book::Refusal;

// The right to accept or to decline an entry in hand: the serial of the register that gave it, the number of the entry's row, and the
// entry's holder and quota. It cannot be copied, and it cannot be let go: whoever has it spends it.
pub struct Grant {
    pub(crate) serial: u32,
    pub(crate) row: usize,
    pub(crate) holder: u32,
    pub(crate) quota: u32,
}

// The terms of a Grant: the holder whom the offer named, and the quota that was offered.
#[derive(Clone, Copy, PartialEq, Eq, Debug)]
pub struct Terms {
    pub holder: u32,
    pub quota: u32,
}

// A Grant that was refused comes back.
pub struct Unspent {
    pub grant: Grant,
    pub refusal: Refusal,
}

impl Grant {
    // Hands the Grant back, with its terms.
    pub fn terms(self) -> (Grant, Terms)
        ensures same { result.0 ≡ self }
        ensures holder { result.1.holder ≡ self.holder }
        ensures quota { result.1.quota ≡ self.quota }
    {
        let terms = Terms {
            holder: self.holder,
            quota: self.quota,
        };
        (self, terms)
    }
}
