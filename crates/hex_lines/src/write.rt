// A line of Intel HEX, written.
ghost use Rattle.std.specs.Prelude.{◌≡◌, [], ◌∷◌, ◌++◌, ◌+◌, ◌*◌, ◌%◌, ◌-◌, ◌^◌, ◌≤◌, ◌<◌, length};
ghost use Rattle.octets.specs.Octets.{bytes};
ghost use Rattle.hex_lines.specs.Format.{boundary, sum};
ghost use Rattle.hex_lines.specs.Line.{hex_line};
ghost use Rattle.hex_lines.specs.Inner.{Wrote};

use crate::{DATA_AT, LEAST_FED, LEAST_LINE, LINE_FEED, MARK};
use hex_digits::encode;

// The sum of bytes.
fn sum(s: &[u8]) -> usize
    requires { length s.now < 256 }
    ensures { (result ≡ sum s.now) × (result < 2 ^ 16) }
{
    s.iter().map(|b| usize::from(*b)).sum()
}

// The checksum of bytes with this sum.
fn checksum(total: usize) -> u8
    ensures { result ≡ (256 - total % 256) % 256 }
{
    ((256 - total % 256) % 256) as u8
}

// The two bytes of a number, the higher first.
pub fn two_bytes(n: usize) -> [u8; 2]
    requires { n < boundary }
    ensures { result ≡ bytes 2 n }
{
    (n as u16).to_be_bytes()
}

// The bytes that a line begins with: the number of its data bytes, its address and its type.
fn line_head(n: usize, kind: u8, address: usize) -> [u8; 4]
    requires { (n < 256) × (address < boundary) }
    ensures { result ≡ n ∷ (bytes 2 address ++ (kind ∷ [])) }
{
    let low = two_bytes(address);
    [n as u8, low[0], low[1], kind]
}

// Writes a line to the front of out, and answers its length.
fn put_line(out: &mut [u8], kind: u8, address: usize, s: &[u8]) -> usize
    requires { (length s.now < 256) × (address < boundary) × (12 + 2 * length s.now ≤ length out.old) }
    ensures { Wrote out.old 0 (hex_line kind address s.now) out.new result }
{
    let n = s.len();
    let head = line_head(n, kind, address);
    let last = [checksum(sum(&head) + sum(s))];
    out[0] = MARK;
    encode(&head, out, 1);
    encode(s, out, DATA_AT);
    encode(&last, out, DATA_AT + 2 * n);
    out[LEAST_LINE + 2 * n] = LINE_FEED;
    LEAST_FED + 2 * n
}

// Writes a line from offset at on, and answers where it ends.
pub fn put_line_at(text: &mut [u8], at: usize, kind: u8, address: usize, s: &[u8]) -> usize
    requires { (length s.now < 256) × (address < boundary) × (at + length (hex_line kind address s.now) ≤ length text.old) }
    ensures { Wrote text.old at (hex_line kind address s.now) text.new result }
{
    at + put_line(&mut text[at..], kind, address, s)
}
