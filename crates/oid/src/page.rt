// Pages: bytes that a writer is lent.
ghost use Rattle.std.specs.Prelude.{◌≡◌, ◌+◌, length, nat_le};

// Whether a page has room for so many bytes from a place onwards.
pub fn fits(page: &[u8], place: usize, count: usize) -> bool
    ensures { result ≡ nat_le (place + count) (length page.now) }
{
    page.len()
        .checked_sub(place)
        .is_some_and(|room| count <= room)
}
