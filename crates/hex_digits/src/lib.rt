// Bytes in hexadecimal: two digits for each, the higher first.
#![tactic(auto)]

ghost use Rattle.std.specs.Prelude.{◌≡◌, ◌+◌, ◌*◌, ◌≤◌, ◌<◌, length};
ghost use Rattle.octets.specs.Octets.{put};
ghost use Rattle.hex_digits.specs.Digits.{is_digit, digit_value, digit_of, pair, decoded, encoded};

// Whether a byte is a digit, of either letter case.
pub fn is_digit(c: u8) -> bool
    ensures { result ≡ is_digit c }
{
    matches!(c, b'0'..=b'9' | b'A'..=b'F' | b'a'..=b'f')
}

// The value of a digit.
fn digit_value(c: u8) -> u8
    ensures { (result ≡ digit_value c) × (result < 16) }
{
    (c % 16 + c / 64 * 9) % 16
}

// The digit of a value below 16, in upper case.
fn digit_of(v: u8) -> u8
    requires { v < 16 }
    ensures { result ≡ digit_of v }
{
    if v < 10 { 0x30 + v } else { 0x37 + v }
}

// The byte of the two digits from offset i on.
pub fn pair(s: &[u8], i: usize) -> u8
    requires { i + 2 ≤ length s.now }
    ensures { result ≡ pair s.now i }
{
    digit_value(s[i]) * 16 + digit_value(s[i + 1])
}

// Writes the n bytes whose digits s begins with to the front of out.
pub fn decode(s: &[u8], n: usize, out: &mut [u8])
    requires { (2 * n ≤ length s.now) × (n ≤ length out.old) }
    ensures { out.new ≡ put out.old 0 (decoded s.now n) }
{
    for (i, byte) in out[..n].iter_mut().enumerate() {
        *byte = pair(s, 2 * i);
    }
}

// Writes the digits of s over the bytes of out from offset at on.
pub fn encode(s: &[u8], out: &mut [u8], at: usize)
    requires { at + 2 * length s.now ≤ length out.old }
    ensures { out.new ≡ put out.old at (encoded s.now) }
{
    for (i, byte) in s.iter().enumerate() {
        out[at + 2 * i] = digit_of(*byte / 16);
        out[at + 2 * i + 1] = digit_of(*byte % 16);
    }
}
