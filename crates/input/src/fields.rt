// Fields of a line.
ghost use Rattle.std.specs.Prelude.{◌≡◌, position};
ghost use Rattle.input.specs.Fields.{is_space, first_field, after_field};

// The bytes before the first space, or all, and what stands behind that space.
pub fn split_field(bytes: &[u8]) -> (&[u8], &[u8])
    ensures first { result.0.now ≡ first_field bytes.now }
    ensures second { result.1.now ≡ after_field bytes.now }
{
    match first_space(bytes) {
        Some(space) => (&bytes[..space], &bytes[space + 1..]),
        None => (bytes, &[]),
    }
}

fn first_space(bytes: &[u8]) -> Option<usize>
    ensures { result ≡ position is_space bytes.now }
{
    bytes.iter().position(|byte| *byte == b' ')
}
