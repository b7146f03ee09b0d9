// The prefix that may stand before the arcs.
ghost use Rattle.std.specs.Prelude.{◌≡◌, ◌≤◌, length};
ghost use Rattle.dotted.specs.Prefix.{prefix_length};

const PREFIX: &[u8; 8] = b"urn:oid:";

// The length of the prefix at the front of a text; 0 where there is none.
pub(crate) fn prefix_length(text: &[u8]) -> usize
    ensures value { result ≡ prefix_length text.now }
    ensures bound { result ≤ length text.now }
{
    if text.starts_with(PREFIX) {
        PREFIX.len()
    } else {
        0
    }
}
