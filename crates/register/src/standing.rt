// Entries where they stand.
use crate::row::Row;

// An entry that stands in the book: the number of its row, and the row.
#[derive(Clone, Copy)]
pub(crate) struct Standing {
    pub(crate) number: usize,
    pub(crate) row: Row,
}
