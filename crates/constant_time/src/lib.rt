// The product of blocks, GHASH and the comparison of tags as calls for C, for hosts/constant_time: with operands that memcheck takes for
// undefined, no jump and no address may depend on them. `variable_time` has what the test must find.
#![tactic(auto)]

mod variable_time;

ghost use Rattle.std.specs.Prelude.{◌≡◌, length};
ghost use Rattle.octets.specs.Octets.{number, same};
ghost use Rattle.ghash.specs.Ghash.{◌•◌};
ghost use Rattle.ghash.specs.Steps.{words, value};
ghost use Rattle.constant_time.specs.Calls.{hashes, hash_call};

use ghash::blocks::block_of;
use ghash::field::{Block, product, steps};
use ghash::ghash;
use octets::limits::TEXT_LIMIT;
use octets::same;
pub use variable_time::{variable_time_halve, variable_time_same};

// The block that s begins with; bytes that are not there count as 0.
fn first_block(s: &[u8]) -> Block
    ensures { value result ≡ number s.now 0 16 }
{
    if s.len() > 16 {
        return block_of(&s[..16]);
    }
    block_of(s)
}

// The product of the blocks that x and h begin with, as two words; bytes that are not there count as 0.
#[unsafe(no_mangle)]
pub extern "C" fn constant_time_product(x: &[u8], h: &[u8], hi: &mut u64, lo: &mut u64)
    ensures { words hi.new lo.new ≡ number x.now 0 16 • number h.now 0 16 }
{
    let t = steps(first_block(h));
    let p = product(first_block(x), &t);
    *hi = p.hi;
    *lo = p.lo;
}

// GHASH of associated data and encrypted text under the hash subkey that h begins with, as two words; where one of both is longer than
// a sealing takes it, the answer is false and the words stay as they were.
#[unsafe(no_mangle)]
pub extern "C" fn constant_time_ghash(
    h: &[u8],
    aad: &[u8],
    cipher: &[u8],
    hi: &mut u64,
    lo: &mut u64,
) -> bool
    ensures { (result ≡ hashes (length aad.now) (length cipher.now)) × (words hi.new lo.new ≡ hash_call h.now aad.now cipher.now (words hi.old lo.old)) }
{
    if (aad.len() <= TEXT_LIMIT) & (cipher.len() <= TEXT_LIMIT) {
        let t = steps(first_block(h));
        let y = ghash(&t, aad, cipher);
        *hi = y.hi;
        *lo = y.lo;
        return true;
    }
    false
}

// Whether two strings are equal.
#[unsafe(no_mangle)]
pub extern "C" fn constant_time_same(a: &[u8], b: &[u8]) -> bool
    ensures { result ≡ same a.now b.now }
{
    same(a, b)
}
