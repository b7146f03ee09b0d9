// Counter calls, made at a desk.
ghost use Rattle.std.specs.Prelude.{◌≡◌, false};
ghost use Rattle.counter.specs.Meaning.{read_as};
ghost use Rattle.register.specs.Registers.{refusal_of, KeepsRest};
ghost use Rattle.runs.specs.Calls.{is_of_line};
ghost use Rattle.runs.specs.Desks.{register_of, book_at, rules_at};
ghost use Rattle.desk.specs.Answers.{told_at, book_after};
ghost use Rattle.desk.specs.Came.{told_by};

use crate::told::Told;
use arc_rules::ArcRule;
use counter::{CounterCall, NoCall};
use runs::{Back, Call, Desk};

// Makes a counter call, if one was read, and answers it.
pub fn answer<P: ArcRule, A: ArcRule>(
    desk: &mut Desk<P, A>,
    call: Result<CounterCall, NoCall>,
) -> Told
    ensures told { result ≡ told_at (rules_at P.means A.means desk.old) (refusal_of (register_of desk.old)) (book_at desk.old) (read_as call) }
    ensures book { book_at desk.new ≡ book_after (rules_at P.means A.means desk.old) (book_at desk.old) (read_as call) }
    ensures rest { KeepsRest (register_of desk.old) (register_of desk.new) }
{
    match call {
        Ok(CounterCall::Collect { taker, entry }) => told(desk.serve(
            Call::Collect {
                taker,
                entry: &entry,
            },
            &mut [],
        )),
        Ok(CounterCall::Accept { entry }) => told(desk.serve(Call::Accept(&entry), &mut [])),
        Ok(CounterCall::Decline { entry }) => told(desk.serve(Call::Decline(&entry), &mut [])),
        Ok(CounterCall::Terms { entry }) => match desk.terms(&entry) {
            Ok(terms) => Told::Terms(terms),
            Err(refusal) => Told::No(refusal),
        },
        Ok(CounterCall::Left { entry }) => match desk.left(&entry) {
            Ok(left) => Told::Left(left),
            Err(refusal) => Told::No(refusal),
        },
        Ok(CounterCall::Tells) => Told::Tells(desk.tells()),
        Err(no_call) => Told::NoCall(no_call),
    }
}

// What comes back of a call that no line makes, as it is told.
fn told(back: Back) -> Told
    requires { is_of_line back ≡ false }
    ensures { result ≡ told_by back }
{
    match back {
        Back::Handed(terms) => Told::Granted(terms),
        Back::Done => Told::Done,
        Back::Refused(refusal) => Told::No(refusal),
        Back::TooShort | Back::Written(_) => unreachable!(),
    }
}
