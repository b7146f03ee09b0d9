// What is written of a roll.
ghost use Rattle.std.specs.Prelude.{◌≡◌, ◌+◌, ◌≤◌, true, false, Ok, IfSome, ◌++◌, length, map, take};
ghost use Rattle.oid.specs.Arcs.{is_arc};
ghost use Rattle.oid.specs.Meaning.{arcs_of};
ghost use Rattle.request.specs.Answers.{roll_bytes, roll_lines, last_line, child_of};
ghost use Rattle.request.specs.Limits.{has_room, least_rest};
ghost use Rattle.register.specs.Registers.{book_of};
ghost use Rattle.register.specs.Submitted.{OnPage};
ghost use Rattle.register.specs.Yes.{shown};

use super::Register;
use oid::{Arc, Identifier, next_arc};
use request::{PageRefusal, Written, write_first_line};

impl<P, A> Register<P, A> {
    // Writes a whole roll at the front of a page: an authority, and its children with arcs from one upwards.
    pub(crate) fn write_roll(
        &self,
        authority: &Identifier,
        from: Arc,
        page: &mut [u8],
    ) -> Result<usize, PageRefusal>
        requires { has_room (length page.old) ≡ true }
        ensures value { result ≡ Ok (length (roll_bytes (length page.old) (arcs_of authority.now) (map child_of (shown (book_of self.now) (arcs_of authority.now) from)))) }
        ensures page { OnPage (roll_bytes (length page.old) (arcs_of authority.now) (map child_of (shown (book_of self.now) (arcs_of authority.now) from))) false page.old page.new }
    {
        let length = write_first_line(Ok(*authority), page)?;
        let mut written = Written { length };
        let next = self.write_children(authority, from, page, &mut written);
        written.put_last(page, next);
        Ok(written.length)
    }

    // Writes the children in the order of their arcs, up to the first whose line is not written, and gives its arc.
    fn write_children(
        &self,
        authority: &Identifier,
        from: Arc,
        page: &mut [u8],
        written: &mut Written,
    ) -> Option<Arc>
        requires { written.old.length + least_rest ≤ length page.old }
        ensures lines { take written.new.length page.new ++ last_line result ≡ take written.old.length page.old ++ roll_lines (length page.old) written.old.length (map child_of (shown (book_of self.now) (arcs_of authority.now) from)) }
        ensures rest { written.new.length + least_rest ≤ length page.new }
        ensures long { length page.new ≡ length page.old }
        ensures arc { IfSome result (λ arc. is_arc arc ≡ true) }
    {
        let mut asked = from;
        loop {
            let Some(row) = self.child_from(authority, asked) else {
                break None;
            };
            if !written.put_child(page, &row.child()) {
                break Some(row.arc());
            }
            let Some(next) = next_arc(row.arc()) else {
                break None;
            };
            asked = next;
        }
    }
}
