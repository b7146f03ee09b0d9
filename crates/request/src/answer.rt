// The first line of an answer.
ghost use Rattle.std.specs.Prelude.{◌≡◌, ◌<◌, ◌^◌, Ok, Err, OnOk, cond, length};
ghost use Rattle.std.specs.Result.{ForErr};
ghost use Rattle.oid.specs.Meaning.{arcs_of};
ghost use Rattle.oid.specs.Pages.{at_front};
ghost use Rattle.request.specs.Answers.{ok_line, no_line, first_line};
ghost use Rattle.request.specs.Limits.{has_room};
ghost use Rattle.request.specs.ReadBack.{ReadsBack};
ghost use Rattle.request.specs.Written.{Puts};
ghost use Rattle.request.specs.declared.page.PageRefusal.TheVariants.{TooShort};

use crate::page::{PageRefusal, has_room};
use crate::refusal::Fault;
use crate::written::Written;
use oid::Identifier;

// Writes an answer's first line at the front of a page: `ok` and an identifier, or `no` and a fault. It answers the line's length, and
// leaves the rest of the page as it was; the answer can be read back from the page. A page that is too short for answers is untouched.
pub fn write_first_line(
    answer: Result<Identifier, Fault>,
    page: &mut [u8],
) -> Result<usize, PageRefusal>
    ensures value { result ≡ cond (has_room (length page.old)) (Ok (length (first_line answer))) (Err TooShort) }
    ensures after { page.new ≡ cond (has_room (length page.old)) (at_front (first_line answer) page.old) page.old }
    ensures reads_back { OnOk result (ReadsBack answer page.new) }
{
    if !has_room(page) {
        return Err(PageRefusal::TooShort);
    }
    let mut written = Written { length: 0 };
    match put_first(&mut written, page, answer) {
        Ok(()) => Ok(written.length),
        // A first line fits on every page that is long enough, so this is never so.
        Err(_) => Err(PageRefusal::TooShort),
    }
}

fn put_first(
    written: &mut Written,
    page: &mut [u8],
    answer: Result<Identifier, Fault>,
) -> Result<(), oid::Refusal>
    ensures puts { Puts (first_line answer) written.old.length page.old result written.new.length page.new }
    ensures offset { ForErr answer (λ fault. fault.offset < 2 ^ 64) }
{
    match answer {
        Ok(identifier) => put_ok(written, page, &identifier),
        Err(fault) => put_no(written, page, fault),
    }
}

// `ok` and an identifier.
fn put_ok(
    written: &mut Written,
    page: &mut [u8],
    identifier: &Identifier,
) -> Result<(), oid::Refusal>
    ensures { Puts (ok_line (arcs_of identifier.now)) written.old.length page.old result written.new.length page.new }
{
    written.put_word(page, b"ok", b' ')?;
    written.put_identifier(page, identifier, b'\n')
}

// `no`, the refusal's number and letter, and the offset.
fn put_no(written: &mut Written, page: &mut [u8], fault: Fault) -> Result<(), oid::Refusal>
    ensures puts { Puts (no_line fault) written.old.length page.old result written.new.length page.new }
    ensures offset { fault.offset < 2 ^ 64 }
{
    written.put_word(page, b"no", b' ')?;
    written.put_number(page, u64::from(fault.refusal.number()), b' ')?;
    written.put_word(page, &[fault.refusal.letter()], b' ')?;
    written.put_number(page, fault.offset as u64, b'\n')
}
