// The form of dotted text.
ghost use Rattle.std.specs.Prelude.{◌≡◌, ◌<◌, length, drop, slice_index};
ghost use Rattle.dotted.specs.Form.{faulty, is_digit};
ghost use Rattle.dotted.specs.Laws.{fits_at};

// The offset of the first byte at fault from `start` on, or `start` where nothing follows; none where the
// text is well formed.
pub(crate) fn first_fault(text: &[u8], start: usize) -> Option<usize>
    ensures { result ≡ faulty start (drop start text.now) }
{
    if start >= text.len() {
        return Some(start);
    }
    (start..text.len()).find(|at| !fits_at(text, start, *at))
}

// Whether the byte there is a digit, or a dot directly between two digits that do not stand before `start`.
fn fits_at(text: &[u8], start: usize, at: usize) -> bool
    requires { at < length text.now }
    ensures { result ≡ fits_at text.now start at }
{
    digit_at(text, at)
        || text[at] == b'.' && at > start && digit_at(text, at - 1) && digit_at(text, at + 1)
}

// Whether a digit stands there.
fn digit_at(text: &[u8], at: usize) -> bool
    ensures { result ≡ is_digit (slice_index text.now at) }
{
    text.get(at).is_some_and(|byte| byte.is_ascii_digit())
}
