// Blocks from bytes, and the bytes of a block.
ghost use Rattle.std.specs.Prelude.{◌≡◌, ◌≤◌, length, get_or};
ghost use Rattle.octets.specs.Octets.{number, bytes};
ghost use Rattle.ghash.specs.Steps.{value};

use super::field::Block;

// Byte i of s, and 0 past its end.
fn byte_at(s: &[u8], i: usize) -> u8
    ensures { result ≡ get_or s.now i 0 }
{
    if i < s.len() { s[i] } else { 0 }
}

// The number of at most 16 bytes, with zeros behind them for those that are missing. Each is read where it lies: no copy of a hash subkey is
// left behind.
pub fn block_of(s: &[u8]) -> Block
    requires { length s.now ≤ 16 }
    ensures { value result ≡ number s.now 0 16 }
{
    let n = u128::from_be_bytes([
        byte_at(s, 0),
        byte_at(s, 1),
        byte_at(s, 2),
        byte_at(s, 3),
        byte_at(s, 4),
        byte_at(s, 5),
        byte_at(s, 6),
        byte_at(s, 7),
        byte_at(s, 8),
        byte_at(s, 9),
        byte_at(s, 10),
        byte_at(s, 11),
        byte_at(s, 12),
        byte_at(s, 13),
        byte_at(s, 14),
        byte_at(s, 15),
    ]);
    Block {
        hi: (n >> 64) as u64,
        lo: (n % 0x1_0000_0000_0000_0000) as u64,
    }
}

// The bytes of a block.
pub fn block_bytes(b: Block) -> [u8; 16]
    ensures { result ≡ bytes 16 (value b) }
{
    (u128::from(b.hi) * 0x1_0000_0000_0000_0000 + u128::from(b.lo)).to_be_bytes()
}
