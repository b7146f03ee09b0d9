// Lines taken into a comparison.
ghost use Rattle.std.specs.Prelude.{◌≡◌, ℕ, true, List, [], ◌∷◌, ◌++◌, is_ok, IfOk};
ghost use Rattle.std.proofs.Common.{sym, subst, append_assoc};
ghost use Rattle.std.proofs.lemmas.List.{append-nil};
ghost use Rattle.input.specs.Lines.{Took, LinesOf};
ghost use Rattle.conformance.specs.Comparing.{Compared, GoesOn};

use crate::comparison::Comparison;
use crate::judging::compare_line;
use input::{Line, LineTaker, read_lines};
use std::alloc::Global;
use std::io;
use std::io::Read;

impl LineTaker for Comparison {
    ghost taken = { GoesOn };

    fn take_line(&mut self, line: &Line) -> io::Result<()>
        ensures goes_on { (bytes : List ℕ) → Took line.now bytes → GoesOn self.old (bytes ∷ []) self.new }
        ensures succeeds { is_ok result ≡ true }
    {
        if self.first.is_some() {
            return Ok(());
        }
        match compare_line(line) {
            Ok(()) => self.agreed = self.agreed.saturating_add(1),
            Err(difference) => self.first = Some(difference),
        }
        Ok(())
    }

    fn pause(&mut self) -> io::Result<()>
        ensures stays { self.new ≡ self.old }
        ensures succeeds { is_ok result ≡ true }
    {
        Ok(())
    }

    ghost none = { λ comparison earlier given. subst (Compared comparison) (sym (append-nil earlier)) given };

    ghost further = { λ first second third lines more one two earlier given.
        subst (Compared third) (append_assoc earlier lines more) (two (earlier ++ lines) (one earlier given)) };
}

// All lines of the input compared, up to the first that differs.
pub fn compare_lines<R: Read>(heap: Global, input: &mut R) -> anyhow::Result<Comparison>
    ensures { IfOk result (λ comparison. (lines : List (List ℕ)) × LinesOf (R.remaining input.old) lines × Compared comparison lines) }
{
    let mut comparison = Comparison::new();
    read_lines(heap, input, &mut comparison)?;
    Ok(comparison)
}
