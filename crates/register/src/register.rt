// The register: rows, two rules, and a serial.
ghost use Rattle.std.specs.Prelude.{◌≡◌, ◌≤◌, [], vec_len};
ghost use Rattle.std.specs.Option.{ForSome, ForNone};
ghost use Rattle.std.specs.Vec.{vec_capacity};
ghost use Rattle.book.specs.Book.{most_entries};

mod asking;
mod changing;
mod finding;
mod free;
mod giving;
mod granting;
mod left;
mod listing;
mod making;
mod order;
mod submitting;
mod telling;
mod turning;

use crate::row::Row;
use book::FoundingRefusal;

// The most entries that a register has.
pub const MOST_ENTRIES: usize = 512;

// A register, with a rule for the arcs of panels and one for those of authorities. The room for all rows is there from the
// founding on, so storing a row needs no memory. A register that was refused has no row, never gets one, and needs no room.
#[derive(Drop)]
pub struct Register<P, A> {
    rows: Vec<Row>,
    panels: P,
    authorities: A,
    serial: u32,
    refused_for: Option<FoundingRefusal>,
    ghost few: { vec_len rows ≤ most_entries },
    ghost room: { ForNone refused_for (most_entries ≤ vec_capacity rows) },
    ghost emptied: { ForSome refused_for (λ _. rows.items ≡ []) },
}
