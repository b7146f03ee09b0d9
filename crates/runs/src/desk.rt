// A desk: a register, and the Grants that it has handed out.
ghost use Rattle.std.specs.Prelude.{◌≤◌};
ghost use Rattle.std.specs.Option.{ForNone};
ghost use Rattle.std.specs.Vec.{vec_capacity};
ghost use Rattle.book.specs.Book.{most_entries};
ghost use Rattle.register.specs.Registers.{book_of, serial_of, refusal_of};
ghost use Rattle.runs.specs.Hands.{AllOwn, EachOnce, AsMany};
ghost use Rattle.runs.specs.Out.{held_in};

mod closing;
mod founding;
mod serving;
mod telling;

use crate::held::Held;
use register::Register;

// A register with the Grants that it handed out, each its own: one for each entry in hand, and no other. The room for all of them is
// there from the founding on, so that no call needs memory; where the founding was refused, none is needed.
pub struct Desk<P, A> {
    register: Register<P, A>,
    held: Vec<Held>,
    ghost own: { AllOwn (serial_of register) (book_of register) (held_in held.items) },
    ghost each_once: { EachOnce (book_of register) (held_in held.items) },
    ghost as_many: { AsMany (book_of register) (held_in held.items) },
    ghost room: { ForNone (refusal_of register) (most_entries ≤ vec_capacity held) },
}
