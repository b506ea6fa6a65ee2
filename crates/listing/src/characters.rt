// Characters are bytes: hex digits in either case in, lower case out.
ghost use Rattle.std.specs.Prelude.{◌≡◌, ◌+◌, ◌*◌, ◌<◌, ◌≤◌, length, drop};
ghost use Rattle.std.specs.List.{list_all};
ghost use Rattle.std.specs.Char.{is_ascii_hexdigit};
ghost use Rattle.listing.specs.Characters.{is_hex, hex_value, all_hex, are_pairs, front_pair, pair_bytes, hex_digit};

pub const SPACE: u8 = b' ';

pub const LINE_FEED: u8 = b'\n';

// The value of a hex digit, and 0 for any other character.
#[tactic(auto, unfolding(crate::specs::Characters::hex_value))]
pub fn hex_value(c: u8) -> u8
    ensures { result ≡ hex_value c }
{
    match c {
        b'0'..=b'9' => c - b'0',
        b'A'..=b'F' => 10 + (c - b'A'),
        b'a'..=b'f' => 10 + (c - b'a'),
        _ => 0,
    }
}

fn all_hex(s: &[u8]) -> bool
    ensures { result ≡ list_all is_ascii_hexdigit s.now }
{
    s.iter().all(|c| c.is_ascii_hexdigit())
}

// At least one pair of hex digits, and nothing else.
#[tactic(auto, unfolding(crate::specs::Characters::are_pairs), using(crate::proofs::Hex::hex_all))]
pub(crate) fn are_pairs(s: &[u8]) -> bool
    ensures { result ≡ are_pairs s.now }
{
    !s.is_empty() && s.len() % 2 == 0 && all_hex(s)
}

#[tactic(auto, using(crate::proofs::Hex::value_small))]
pub(crate) fn pair_at(s: &[u8], at: usize) -> u8
    requires { at + 2 ≤ length s.now }
    ensures { result ≡ front_pair (drop at s.now) }
{
    16 * hex_value(s[at]) + hex_value(s[at + 1])
}

// Reads as many bytes from the pairs at the front of s as there is room for.
#[tactic(auto, using(crate::proofs::Hex::pair_none, crate::proofs::Hex::pair_more, crate::proofs::Hex::pair_all))]
pub fn load_pairs(s: &[u8], bytes: &mut [u8])
    requires { 2 * length bytes.old ≤ length s.now }
    ensures { bytes.new ≡ pair_bytes (length bytes.old) s.now }
{
    for (i, byte) in bytes.iter_mut().enumerate() {
        *byte = pair_at(s, 2 * i);
    }
}

// Kept: char::from_digit goes through u32, Option and char and back.
#[tactic(auto, unfolding(crate::specs::Characters::hex_digit))]
pub(crate) fn hex_digit(n: u8) -> u8
    requires { n < 16 }
    ensures { result ≡ hex_digit n }
{
    if n < 10 { b'0' + n } else { b'a' + (n - 10) }
}
