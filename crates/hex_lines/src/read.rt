// A line of Intel HEX, read from the front of a text.
ghost use Rattle.std.specs.Prelude.{◌≡◌, ◌+◌, ◌*◌, ◌/◌, ◌≤◌, ◌<◌, length};
ghost use Rattle.hex_digits.specs.Digits.{pair};
ghost use Rattle.hex_lines.specs.Format.{boundary};
ghost use Rattle.hex_lines.specs.Line.{shape_wrong};
ghost use Rattle.hex_lines.specs.Inner.{end_length, LineOf, FoundIn, SumOf};

use crate::{
    CARRIAGE_RETURN, DATA_AT, DATA_LINE, END_LINE, LEAST_LINE, LINE_FEED, MARK, UPPER_LINE,
};
use hex_digits::{is_digit, pair};
use octets::part;

// The numbers that a line begins with, and how many bytes end it: 0 where it has no end.
#[derive(Clone, Copy)]
pub struct Line {
    pub length: usize,
    pub address: usize,
    pub kind: u8,
    pub tail: usize,
}

// How many bytes end a line at offset i: 0 where no line ends there.
// A number and no Option: LineOf promises it of any text, and the length of a line is a sum with it.
fn end_length(s: &[u8], i: usize) -> usize
    ensures { (result ≡ end_length s.now i) × (result < 3) }
{
    if i >= s.len() {
        return 0;
    }
    if s[i] == LINE_FEED {
        return 1;
    }
    if s[i] != CARRIAGE_RETURN {
        return 0;
    }
    let next = i + 1;
    if next >= s.len() {
        return 0;
    }
    if s[next] == LINE_FEED { 2 } else { 0 }
}

// The number of the four digits from offset i on.
pub fn number(s: &[u8], i: usize) -> usize
    requires { i + 4 ≤ length s.now }
    ensures { (result ≡ pair s.now i * 256 + pair s.now (i + 2)) × (result < boundary) }
{
    pair(s, i) as usize * 256 + pair(s, i + 2) as usize
}

// The line that s begins with, if it begins with one.
pub fn line_of(s: &[u8]) -> Line
    requires { 9 ≤ length s.now }
    ensures { LineOf s.now result }
{
    let length = pair(s, 1) as usize;
    Line {
        length,
        address: number(s, 3),
        kind: pair(s, 7),
        tail: end_length(s, LEAST_LINE + 2 * length),
    }
}

// Whether a line's type, length and address do not go together.
fn shape_wrong(kind: u8, n: usize, address: usize) -> bool
    ensures { result ≡ shape_wrong kind n address }
{
    match kind {
        DATA_LINE => n == 0,
        END_LINE => (n != 0) | (address != 0),
        UPPER_LINE => (n != 2) | (address != 0),
        _ => true,
    }
}

// The sum of the bytes whose digits are s, if all are digits. The loop has no branch, so that a compiler can take several digits at once.
fn digit_sum(s: &[u8]) -> Option<u32>
    requires { (2 * (length s.now / 2) ≡ length s.now) × (length s.now < 1000) }
    ensures { SumOf s.now result }
{
    let mut total: u32 = 0;
    let mut digits = true;
    for two in s.chunks_exact(2) {
        digits = digits & is_digit(two[0]) & is_digit(two[1]);
        total += u32::from(pair(two, 0));
    }
    if digits { Some(total) } else { None }
}

// The line at the front of s, if one stands there, and whether its checksum is wrong.
pub fn line_at(s: &[u8]) -> Option<(Line, bool)>
    ensures { FoundIn s.now result }
{
    if s.len() < DATA_AT {
        return None;
    }
    if s[0] != MARK {
        return None;
    }
    let line = line_of(s);
    if (line.tail == 0) | shape_wrong(line.kind, line.length, line.address) {
        return None;
    }
    let total = digit_sum(part(s, 1, 10 + 2 * line.length))?;
    Some((line, total % 256 != 0))
}
