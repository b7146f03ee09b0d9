// A number as some notation writes it.
use crate::arc::Arc;

// Where a number begins, its value as an arc (none where it is too large), and whether it has two or
// more digits of which the first is 0.
#[derive(Clone, Copy)]
pub struct Numeral {
    pub offset: usize,
    pub arc: Option<Arc>,
    pub padded: bool,
}
