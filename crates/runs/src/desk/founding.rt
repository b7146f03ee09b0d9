// A desk founded.
ghost use Rattle.std.specs.Prelude.{◌≡◌, ◌≤◌, [], None, IfOk, IfSome, IsOk};
ghost use Rattle.std.specs.Vec.{vec_capacity};
ghost use Rattle.book.specs.Book.{most_entries};
ghost use Rattle.book.specs.Founding.{founding_refusal};
ghost use Rattle.book.specs.Law.{at_founding};
ghost use Rattle.register.specs.Registers.{founding_of, serial_of, refusal_of};
ghost use Rattle.runs.specs.Desks.{LedTo, register_of, book_at, rules_at};

use super::Desk;
use crate::held::Held;
use arc_rules::ArcRule;
use book::FoundingRefusal;
use register::{Founding, MOST_ENTRIES, Register};
use std::alloc::{AllocError, Global};

impl<P: ArcRule + Drop, A: ArcRule + Drop> Desk<P, A> {
    // The desk of a register that is so founded, with no Grant out. An error is want of memory, which a founding that is refused does not
    // need.
    pub fn founded(alloc: Global, founding: Founding<P, A>) -> Result<Self, AllocError>
        ensures led { IfOk result (λ desk. LedTo (at_founding (founding_of P.means A.means founding)) [] (rules_at P.means A.means desk) (book_at desk)) }
        ensures refusal { IfOk result (λ desk. refusal_of (register_of desk) ≡ founding_refusal (founding_of P.means A.means founding)) }
        ensures told { IfSome (founding_refusal (founding_of P.means A.means founding)) (λ _. IsOk result) }
        ensures serial { IfOk result (λ desk. serial_of (register_of desk) ≡ founding.serial) }
    {
        let register = Register::founded(alloc, founding)?;
        let held = room_for_grants(alloc, register.refusal())?;
        Ok(Desk { register, held })
    }
}

// Room for as many Grants as a register can hand out; none where its founding was refused.
fn room_for_grants(
    alloc: Global,
    refused_for: Option<FoundingRefusal>,
) -> Result<Vec<Held>, AllocError>
    ensures empty { IfOk result (λ held. held.items ≡ []) }
    ensures room { IfOk result (λ held. refused_for ≡ None → most_entries ≤ vec_capacity held) }
    ensures told { IfSome refused_for (λ _. IsOk result) }
{
    match refused_for {
        Some(_) => Ok(Vec::new(alloc)),
        None => Vec::with_capacity(alloc, MOST_ENTRIES),
    }
}
