// How a register is founded.
ghost use Rattle.std.specs.Prelude.{◌≡◌};
ghost use Rattle.book.specs.Founding.{founding_refusal};
ghost use Rattle.register.specs.Registers.{founding_of};

use arc_rules::ArcRule;
use book::FoundingRefusal;
use book::ranges::{is_holder, is_quota};
use oid::Identifier;

// What a register is founded with: the root of its part of the tree, the holder and the quota of the root, the register's serial,
// and the rules for the arcs of panels and of authorities.
#[derive(Drop)]
pub struct Founding<P, A> {
    pub root: Identifier,
    pub holder: u32,
    pub quota: u32,
    pub serial: u32,
    pub panels: P,
    pub authorities: A,
}

impl<P: ArcRule, A: ArcRule> Founding<P, A> {
    // Why it is refused, if it is.
    pub fn refusal(&self) -> Option<FoundingRefusal>
        ensures { result ≡ founding_refusal (founding_of P.means A.means self.now) }
    {
        if !is_quota(self.quota) {
            return Some(FoundingRefusal::QuotaTooLarge);
        }
        if !is_holder(self.holder) {
            return Some(FoundingRefusal::NoHolder);
        }
        None
    }
}
