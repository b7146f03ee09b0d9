// Lines of input, answered at a desk one after the other.
ghost use Rattle.std.specs.Prelude.{◌≡◌, ℕ, List, [], length, OnOk};
ghost use Rattle.std.specs.Io.Buffered.{writer_contents, writer_buffer};
ghost use Rattle.std.proofs.Common.{sym, subst};
ghost use Rattle.std.proofs.lemmas.List.Sums.{fold-append};
ghost use Rattle.input.specs.Lines.{Took};
ghost use Rattle.register.specs.Registers.{KeepsRest};
ghost use Rattle.runs.specs.Desks.{register_of, book_at};
ghost use Rattle.desk.specs.Lines.{State, served, all_served};
ghost use Rattle.desk.specs.States.{IsAt};

use crate::calls::answer;
use arc_rules::ArcRule;
use counter::{is_counter, read};
use hall::serve_line;
use input::{Line, LineTaker};
use runs::Desk;
use std::io;
use std::io::{BufWriter, Write};

// A desk that answers lines, with the page for what request lines are answered, and the output that all answers go to.
pub struct Service<P, A, W: Write + Drop> {
    pub desk: Desk<P, A>,
    pub page: Vec<u8>,
    pub out: BufWriter<W>,
}

impl<P: ArcRule, A: ArcRule, W: Write + Drop> LineTaker for Service<P, A, W> {
    ghost taken = { λ before lines after. (state : State)
        → IsAt P.means A.means before.desk (length before.page.items) (writer_contents W.contents before.out) state
        → IsAt P.means A.means after.desk (length after.page.items) (writer_contents W.contents after.out) (all_served state lines) };

    fn take_line(&mut self, line: &Line) -> io::Result<()> {
        answer_line(&mut self.desk, line, &mut self.page, &mut self.out)
    }

    fn pause(&mut self) -> io::Result<()>
        ensures stays { OnOk result ((state : State)
            → IsAt P.means A.means self.old.desk (length self.old.page.items) (writer_contents W.contents self.old.out) state
            → IsAt P.means A.means self.new.desk (length self.new.page.items) (writer_contents W.contents self.new.out) state) }
        ensures handed_on { OnOk result (writer_buffer self.new.out ≡ []) }
    {
        self.out.flush()
    }

    ghost none = { λ service state at. at };

    ghost further = { λ first second third lines more one two state at.
        subst (IsAt P.means A.means third.desk (length third.page.items) (writer_contents W.contents third.out))
        (sym (fold-append served state lines more)) (two (all_served state lines) (one state at)) };
}

// Answers a line that has ended: a counter call by its Grant, any other line as a request line. Of a line that is too long to be kept the
// bytes that are kept are read; no counter call has so many, since its identifier has at most 16 arcs of at most 10 digits.
pub fn answer_line<P: ArcRule, A: ArcRule, W: Write + Drop>(
    desk: &mut Desk<P, A>,
    line: &Line,
    page: &mut [u8],
    out: &mut BufWriter<W>,
) -> io::Result<()>
    ensures served { OnOk result ((bytes : List ℕ) (state : State) → Took line.now bytes
        → IsAt P.means A.means desk.old (length page.old) (writer_contents W.contents out.old) state
        → IsAt P.means A.means desk.new (length page.new) (writer_contents W.contents out.new) (served state bytes)) }
    // Also where the answer could not be written.
    ensures book { (bytes : List ℕ) (state : State) → Took line.now bytes
        → IsAt P.means A.means desk.old (length page.old) (writer_contents W.contents out.old) state
        → book_at desk.new ≡ (served state bytes).book }
    ensures page { length page.new ≡ length page.old }
    ensures rest { KeepsRest (register_of desk.old) (register_of desk.new) }
{
    if is_counter(line.kept()) {
        let told = answer(desk, read(line.kept()));
        writeln!(out, "{told}")
    } else {
        serve_line(desk, line, page, out)
    }
}
