// A register founded.
ghost use Rattle.std.specs.Prelude.{◌≡◌, IfOk, IfSome, IsOk};
ghost use Rattle.book.specs.Founding.{founding_refusal};
ghost use Rattle.book.specs.Law.{Begins, at_founding};
ghost use Rattle.register.specs.Registers.{founding_of, start_of, refusal_of, serial_of};

use super::{MOST_ENTRIES, Register};
use crate::founding::Founding;
use crate::row::Row;
use arc_rules::ArcRule;
use book::Kind;
use std::alloc::{AllocError, Global};

impl<P: ArcRule + Drop, A: ArcRule + Drop> Register<P, A> {
    // The register that is so founded, empty where the founding is refused. Every run starts here. An error is want of memory, which
    // a founding that is refused does not need.
    pub fn founded(alloc: Global, founding: Founding<P, A>) -> Result<Self, AllocError>
        ensures start { IfOk result (λ register. start_of P.means A.means register ≡ at_founding (founding_of P.means A.means founding)) }
        ensures begins { IfOk result (λ register. Begins (start_of P.means A.means register)) }
        ensures refusal { IfOk result (λ register. refusal_of register ≡ founding_refusal (founding_of P.means A.means founding)) }
        ensures told { IfSome (founding_refusal (founding_of P.means A.means founding)) (λ _. IsOk result) }
        ensures rules { IfOk result (λ register. (register.panels ≡ founding.panels) × (register.authorities ≡ founding.authorities)) }
        ensures serial { IfOk result (λ register. serial_of register ≡ founding.serial) }
    {
        let refused_for = founding.refusal();
        let Founding {
            root,
            holder,
            quota,
            serial,
            panels,
            authorities,
        } = founding;
        let mut rows = Vec::new(alloc);
        if refused_for.is_none() {
            rows = Vec::with_capacity(alloc, MOST_ENTRIES)?;
            rows.push_reserved(Row {
                identifier: root,
                kind: Kind::Open,
                holder,
                quota,
            });
        }
        Ok(Register {
            rows,
            panels,
            authorities,
            serial,
            refused_for,
        })
    }
}
