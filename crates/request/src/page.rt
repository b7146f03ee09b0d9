// How long pages are, on which answers are written.
ghost use Rattle.std.specs.Prelude.{◌≡◌, length};
ghost use Rattle.request.specs.Limits.{has_room};
ghost use Rattle.request.specs.Refusals.{page_number};

// The fewest bytes of a page that an answer is written on.
pub const LEAST_PAGE: usize = 256;

// The fewest bytes of a page that remain after each line that a roll writes of a child.
pub const LEAST_REST: usize = 16;

// The refusal of a page. The number is all that is told.
#[derive(Clone, Copy, PartialEq, Eq, Debug)]
pub enum PageRefusal {
    TooShort = 9,
}

impl PageRefusal {
    // The number that the refusal is told by.
    pub fn number(self) -> u8
        ensures { result ≡ page_number self }
    {
        self as u8
    }
}

// Whether a page is long enough for an answer.
pub fn has_room(page: &[u8]) -> bool
    ensures { result ≡ has_room (length page.now) }
{
    page.len() >= LEAST_PAGE
}
