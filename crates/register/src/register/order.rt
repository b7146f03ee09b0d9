// The children of an authority in the order of their arcs.
ghost use Rattle.std.specs.Prelude.{◌≡◌, true, nat_lt};
ghost use Rattle.std.specs.Option.{option_map, option_map_or, option_copied};
ghost use Rattle.oid.specs.Meaning.{arcs_of};
ghost use Rattle.book.specs.Book.{children, arc_of_child};
ghost use Rattle.register.specs.Kept.{entry_of};
ghost use Rattle.book.specs.Order.{next_child};
ghost use Rattle.register.specs.Registers.{book_of};

use super::Register;
use crate::row::Row;
use oid::{Arc, Identifier};

impl<P, A> Register<P, A> {
    // The child of an authority with the lowest arc that is not below the one given, the first of several with that arc.
    pub(crate) fn child_from(&self, authority: &Identifier, from: Arc) -> Option<Row>
        ensures { option_map entry_of result ≡ next_child from (children (arcs_of authority.now) (book_of self.now)) }
    {
        let mut lowest: Option<&Row> = None;
        for row in &self.rows {
            let arc = row.arc();
            if arc >= from && is_lower(arc, lowest) && row.is_child(authority) {
                lowest = Some(row);
            }
        }
        lowest.copied()
    }
}

// Whether an arc is below that of a row, if there is one.
fn is_lower(arc: Arc, row: Option<&Row>) -> bool
    ensures { result ≡ option_map_or (λ entry. nat_lt arc (arc_of_child entry)) (option_map entry_of (option_copied row.entry)) true }
{
    row.is_none_or(|row| arc < row.arc())
}
