// Pairs of hexadecimal digits.
ghost use Rattle.std.specs.Prelude.{◌≡◌, ◌≤◌, position};
ghost use Rattle.std.specs.Char.{is_ascii_hexdigit};
ghost use Rattle.input.specs.Hex.{is_stray_pair, hex_value, unpaired, pairs_read, page_after};

// The offset of the first byte at fault: one that is no digit, else an odd last digit. None where there are pairs of
// digits only. An odd last byte is at fault whether it is a digit or not.
pub fn first_unpaired(digits: &[u8]) -> Option<usize>
    ensures { result ≡ unpaired digits.now }
{
    let (pairs, _) = digits.as_chunks::<2>();
    match first_stray_pair(pairs) {
        Some(place) => Some(2 * place + usize::from(is_hex(pairs[place][0]))),
        None if digits.len() % 2 == 1 => Some(digits.len() - 1),
        None => None,
    }
}

// The place of the first pair with a byte that is no digit.
fn first_stray_pair(pairs: &[[u8; 2]]) -> Option<usize>
    ensures { result ≡ position is_stray_pair pairs.now }
{
    pairs
        .iter()
        .position(|[high, low]| !(is_hex(*high) & is_hex(*low)))
}

// Whether a byte is a digit; by a table, so that each byte takes as long as another.
fn is_hex(byte: u8) -> bool
    ensures { result ≡ is_ascii_hexdigit byte }
{
    HEX[usize::from(byte)] != 0
}

// 1 for each byte that is a digit, 0 for another.
const HEX: [u8; 256] = [
    0, 0, 0, 0, 0, 0, 0, 0, 0, 0, 0, 0, 0, 0, 0, 0, 0, 0, 0, 0, 0, 0, 0, 0, 0, 0, 0, 0, 0, 0, 0, 0,
    0, 0, 0, 0, 0, 0, 0, 0, 0, 0, 0, 0, 0, 0, 0, 0, 1, 1, 1, 1, 1, 1, 1, 1, 1, 1, 0, 0, 0, 0, 0, 0,
    0, 1, 1, 1, 1, 1, 1, 0, 0, 0, 0, 0, 0, 0, 0, 0, 0, 0, 0, 0, 0, 0, 0, 0, 0, 0, 0, 0, 0, 0, 0, 0,
    0, 1, 1, 1, 1, 1, 1, 0, 0, 0, 0, 0, 0, 0, 0, 0, 0, 0, 0, 0, 0, 0, 0, 0, 0, 0, 0, 0, 0, 0, 0, 0,
    0, 0, 0, 0, 0, 0, 0, 0, 0, 0, 0, 0, 0, 0, 0, 0, 0, 0, 0, 0, 0, 0, 0, 0, 0, 0, 0, 0, 0, 0, 0, 0,
    0, 0, 0, 0, 0, 0, 0, 0, 0, 0, 0, 0, 0, 0, 0, 0, 0, 0, 0, 0, 0, 0, 0, 0, 0, 0, 0, 0, 0, 0, 0, 0,
    0, 0, 0, 0, 0, 0, 0, 0, 0, 0, 0, 0, 0, 0, 0, 0, 0, 0, 0, 0, 0, 0, 0, 0, 0, 0, 0, 0, 0, 0, 0, 0,
    0, 0, 0, 0, 0, 0, 0, 0, 0, 0, 0, 0, 0, 0, 0, 0, 0, 0, 0, 0, 0, 0, 0, 0, 0, 0, 0, 0, 0, 0, 0, 0,
];

// Reads pairs of digits, a byte for each, to the front of a page, and answers how many bytes; a byte that is no digit
// counts as 0. None where the page has no room for them, and then it is untouched.
pub fn read_pairs(digits: &[u8], page: &mut [u8]) -> Option<usize>
    ensures value { result ≡ pairs_read digits.now page.old }
    ensures after { page.new ≡ page_after digits.now page.old }
{
    let (pairs, _) = digits.as_chunks::<2>();
    if pairs.len() > page.len() {
        return None;
    }
    for (place, [high, low]) in pairs.iter().enumerate() {
        page[place] = 16 * value_of(*high) + value_of(*low);
    }
    Some(pairs.len())
}

// The value of a digit; of another byte 0.
fn value_of(byte: u8) -> u8
    ensures value { result ≡ hex_value byte }
    ensures bound { result ≤ 15 }
{
    match byte {
        b'0'..=b'9' => byte - b'0',
        b'A'..=b'F' => byte - b'A' + 10,
        b'a'..=b'f' => byte - b'a' + 10,
        _ => 0,
    }
}
