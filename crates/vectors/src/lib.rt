// Reading test vectors: lines of fields in hexadecimal.
#![tactic(auto)]

ghost use Rattle.std.specs.Prelude.{◌≡◌, ◌+◌, ◌≤◌, length, take, drop};
ghost use Rattle.vectors.specs.Lines.{until};

// How many bytes stand before the first that is `limit` or less.
pub fn until(s: &[u8], limit: u8) -> usize
    ensures { (result ≡ until limit s.now) × (result ≤ length s.now) }
{
    s.iter().position(|b| *b <= limit).unwrap_or(s.len())
}

// A field or a line, up to the first byte that is `limit` or less, and what is left behind that byte.
pub fn cut(s: &[u8], limit: u8) -> (&[u8], &[u8])
    ensures before { result.0.now ≡ take (until limit s.now) s.now }
    ensures behind { result.1.now ≡ drop (until limit s.now + 1) s.now }
{
    let n = until(s, limit);
    let behind = if n < s.len() { &s[n + 1..] } else { &s[n..] };
    (&s[..n], behind)
}
