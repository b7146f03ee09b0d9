// A list of calls, made one after the other at a desk just founded.
ghost use Rattle.std.specs.Prelude.{◌≡◌, false, [], IfOk};
ghost use Rattle.book.specs.Founding.{founding_refusal};
ghost use Rattle.book.specs.Runs.{Serves};
ghost use Rattle.register.specs.Registers.{founding_of, serial_of, refusal_of, KeepsRest};
ghost use Rattle.request.specs.RequestLines.{request_lines};
ghost use Rattle.runs.specs.Calls.{back_of, is_of_line};
ghost use Rattle.runs.specs.Desks.{register_of, book_at, rules_at};
ghost use Rattle.runs.specs.Replays.{Replays, replayed, back_by};

use crate::call::{Back, Call};
use crate::desk::Desk;
use crate::sent::{Said, Sent};
use arc_rules::ArcRule;
use register::Founding;
use std::alloc::{AllocError, Global};

// What came back of a list of calls, in order, and the desk that they led to.
pub struct Replayed<P, A> {
    pub desk: Desk<P, A>,
    pub said: Vec<Said>,
}

// Founds a register, and sends it a list of calls. An error is want of memory, and then nothing was founded.
pub fn replay<P: ArcRule + Drop, A: ArcRule + Drop>(
    alloc: Global,
    founding: Founding<P, A>,
    calls: Vec<Sent>,
) -> Result<Replayed<P, A>, AllocError>
    ensures replays { IfOk result (λ done. Replays (founding_of P.means A.means founding) calls.items done.said.items (rules_at P.means A.means done.desk) (book_at done.desk)) }
    ensures serial { IfOk result (λ done. serial_of (register_of done.desk) ≡ founding.serial) }
    ensures refusal { IfOk result (λ done. refusal_of (register_of done.desk) ≡ founding_refusal (founding_of P.means A.means founding)) }
{
    let mut said = Vec::with_capacity(alloc, calls.len())?;
    let mut desk = Desk::founded(alloc, founding)?;
    for call in calls {
        said.push_reserved(send(&mut desk, call));
    }
    Ok(Replayed { desk, said })
}

// Sends one call.
fn send<P: ArcRule, A: ArcRule>(desk: &mut Desk<P, A>, call: Sent) -> Said
    ensures serves { Serves request_lines (rules_at P.means A.means desk.old) (book_at desk.old) (replayed call result (book_at desk.new)) }
    ensures rest { KeepsRest (register_of desk.old) (register_of desk.new) }
{
    match call {
        Sent::Line { bytes, mut page } => match desk.serve(Call::Line(&bytes), &mut page) {
            Back::Written(length) => {
                page.truncate(length);
                Said::Written(page)
            }
            _ => Said::TooShort,
        },
        Sent::Collect { taker, entry } => said(desk.serve(
            Call::Collect {
                taker,
                entry: &entry,
            },
            &mut [],
        )),
        Sent::Accept { entry } => said(desk.serve(Call::Accept(&entry), &mut [])),
        Sent::Decline { entry } => said(desk.serve(Call::Decline(&entry), &mut [])),
    }
}

// What comes back of a call that no line makes.
fn said(back: Back) -> Said
    ensures { is_of_line back ≡ false → back_by result ≡ back_of back [] }
{
    match back {
        Back::Handed(terms) => Said::Handed(terms),
        Back::Done => Said::Done,
        Back::Refused(refusal) => Said::Refused(refusal),
        Back::TooShort | Back::Written(_) => Said::TooShort,
    }
}
