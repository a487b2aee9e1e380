// Byte strings: the functions on slices that several crates call, and the limits of documents 01 and 02.
#![tactic(auto)]

pub mod limits;

ghost use Rattle.std.specs.Prelude.{◌≡◌, ◌+◌, ◌^◌, ◌≤◌, ◌<◌, length, replicate};
ghost use Rattle.octets.specs.Octets.{part, put, same, blank, bytes};
ghost use Rattle.octets.specs.Word.{word_at, kind_of, value_of, word, top_kind, low_value};

// The n bytes from offset i.
pub fn part(s: &[u8], i: usize, n: usize) -> &[u8]
    requires { i + n ≤ length s.now }
    ensures { (result.now ≡ part s.now i n) × (length result.now ≡ n) }
{
    &s[i..i + n]
}

// Whether every byte is 0xFF.
// By an iterator's `all` a look at a ring of 32 pages of 512 slots took a third longer: the compiler unrolls this loop over a page.
pub fn blank(s: &[u8]) -> bool
    ensures { result ≡ blank s.now }
{
    for b in s {
        if *b != 0xFF {
            return false;
        }
    }
    true
}

// The bits in which two strings of one length differ, all bytes taken together.
fn differences(a: &[u8], b: &[u8]) -> u8
    requires { length a.now ≡ length b.now }
    ensures { (result ≡ 0 → a.now ≡ b.now) × (a.now ≡ b.now → result ≡ 0) }
{
    let mut d: u8 = 0;
    for (x, y) in a.iter().zip(b) {
        d |= *x ^ *y;
    }
    d
}

// Whether two strings are equal. Of two strings of one length every byte is looked at, wherever they differ.
pub fn same(a: &[u8], b: &[u8]) -> bool
    ensures { result ≡ same a.now b.now }
{
    if a.len() != b.len() {
        return false;
    }
    differences(a, b) == 0
}

// Copies the bytes of `from` over the first of `to`.
// A loop: of `copy_from_slice` the compiler makes a call of memmove, and libraries call memcpy and memset alone.
pub fn copy(from: &[u8], to: &mut [u8])
    requires { length from.now ≤ length to.old }
    ensures { to.new ≡ put to.old 0 from.now }
{
    for (i, byte) in from.iter().enumerate() {
        to[i] = *byte;
    }
}

// Copies the bytes of `from` over those of `to` from offset i on.
pub fn copy_at(from: &[u8], to: &mut [u8], i: usize)
    requires { i + length from.now ≤ length to.old }
    ensures { to.new ≡ put to.old i from.now }
{
    copy(from, &mut to[i..]);
}

// The N bytes of a string as an array.
pub fn array<const N: usize>(s: &[u8]) -> [u8; N]
    requires { length s.now ≡ N }
    ensures { result ≡ s.now }
{
    let mut r = [0u8; N];
    copy(s, &mut r);
    r
}

// Sets every byte to b.
pub fn fill(s: &mut [u8], b: u8)
    ensures { s.new ≡ replicate (length s.old) b }
{
    s.fill(b);
}

// The word of the four bytes at offset i, most significant byte first.
pub fn word_at(s: &[u8], i: usize) -> u32
    requires { i + 4 ≤ length s.now }
    ensures { result ≡ word_at s.now i }
{
    u32::from_be_bytes([s[i], s[i + 1], s[i + 2], s[i + 3]])
}

// The four bytes of a word, most significant byte first.
pub fn word_bytes(w: u32) -> [u8; 4]
    ensures { result ≡ bytes 4 w }
{
    w.to_be_bytes()
}

// The four readings below differ in a constant of their papers and in what they give; each is one operation, so one for both constants
// would be no shorter than a call of it.

// The kind of a checkpoint's word: its top two bits.
pub fn kind_of(w: u32) -> u32
    ensures { result ≡ kind_of w }
{
    w / 0x4000_0000
}

// The value of a checkpoint's word: its low 30 bits.
pub fn value_of(w: u32) -> usize
    ensures { (result ≡ value_of w) × (result < 2 ^ 30) }
{
    (w % 0x4000_0000) as usize
}

// The four bytes of the word of a kind and a value.
pub fn word_of(kind: u32, value: usize) -> [u8; 4]
    requires { (kind < 4) × (value < 2 ^ 30) }
    ensures { result ≡ word kind value }
{
    word_bytes(kind * 0x4000_0000 + value as u32)
}

// The kind of a bench trace's or a setting's word: its top four bits.
pub fn top_kind(w: u32) -> u32
    ensures { (result ≡ top_kind w) × (result < 16) }
{
    w / 0x1000_0000
}

// Its value: the low 28 bits.
pub fn low_value(w: u32) -> u32
    ensures { (result ≡ low_value w) × (result < 2 ^ 28) }
{
    w % 0x1000_0000
}
