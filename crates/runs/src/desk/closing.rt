// The end of a desk.
ghost use Rattle.register.specs.Registers.{book_of, KeepsRest};
ghost use Rattle.runs.specs.Closing.{Closes};
ghost use Rattle.runs.specs.Desks.{register_of, book_at, rules_at};

use super::Desk;
use crate::held::Held;
use arc_rules::ArcRule;
use register::Register;

impl<P: ArcRule, A: ArcRule> Desk<P, A> {
    // Ends the desk: declines with every Grant that is still out, and gives the register back.
    pub fn close(self) -> Register<P, A>
        ensures closes { Closes (rules_at P.means A.means self) (book_at self) (book_of result) }
        ensures rest { KeepsRest (register_of self) result }
    {
        let Desk {
            mut register,
            mut held,
        } = self;
        while let Some(last) = held.pop() {
            let Held { entry: _, grant } = last;
            match register.decline(grant) {
                Ok(_) => {}
                // A register's own Grant is never refused.
                Err(_unspent) => unreachable!(),
            }
        }
        held.destroy_empty();
        register
    }
}
