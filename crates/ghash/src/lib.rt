// GHASH (SP 800-38D, algorithm 2), and what it is made of: blocks as elements of the field GF(2^128), from bytes and back.
#![tactic(auto)]

pub mod blocks;
pub mod field;

ghost use Rattle.std.specs.Prelude.{◌≡◌, ℕ, ◌^◌, ◌<◌, length};
ghost use Rattle.ghash.specs.Ghash.{hashed, GHASH};
ghost use Rattle.ghash.specs.Input.{padded, hash_input};
ghost use Rattle.ghash.specs.Steps.{value, Steps};

use blocks::block_of;
use field::{Block, add, product};

// s, which zeros fill up to whole blocks, hashed in under the hash subkey whose steps t has, from the value y on.
fn hash(t: &[u64; 256], y: Block, s: &[u8]) -> Block
    ensures { (H : ℕ) → Steps H t.now → value result ≡ hashed H (value y) (padded s.now) }
{
    let mut z = y;
    for block in s.chunks(16) {
        z = product(add(z, block_of(block)), t);
    }
    z
}

// GHASH of associated data, encrypted text and their lengths in bits, each of which fits a word.
pub fn ghash(t: &[u64; 256], aad: &[u8], cipher: &[u8]) -> Block
    requires { (length aad.now < 2 ^ 60) × (length cipher.now < 2 ^ 60) }
    ensures { (H : ℕ) → Steps H t.now → value result ≡ GHASH H (hash_input aad.now cipher.now) }
{
    let y = hash(t, hash(t, Block { hi: 0, lo: 0 }, aad), cipher);
    let lengths = Block {
        hi: 8 * aad.len() as u64,
        lo: 8 * cipher.len() as u64,
    };
    product(add(y, lengths), t)
}
