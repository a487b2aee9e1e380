// A block of 128 bits in two words, and the product of blocks (SP 800-38D, algorithm 1). The steps V_i of the hash subkey are made once
// per key, and each product adds up those whose bit is 1, by masks. No branch, no end of a loop and no index depends on what the blocks hold.
// Its loops count to a constant by hand: hosts/constant_time/branches takes no other branch in this file.
ghost use Rattle.std.specs.Prelude.{◌≡◌, ℕ, ◌+◌, ◌-◌, ◌/◌, ◌%◌, ◌*◌, ◌^◌, ◌<◌, ◌≤◌, get_or};
ghost use Rattle.octets.specs.Octets.{◌⊕◌};
ghost use Rattle.ghash.specs.Ghash.{add_if, bit, halved, Zᵢ, ◌•◌};
ghost use Rattle.ghash.specs.Steps.{words, value, Steps};

#[derive(Clone, Copy)]
pub struct Block {
    pub hi: u64,
    pub lo: u64,
}

// The sum of two blocks.
pub fn add(a: Block, b: Block) -> Block
    ensures { value result ≡ value a ⊕ value b }
{
    Block {
        hi: a.hi ^ b.hi,
        lo: a.lo ^ b.lo,
    }
}

// The constant that is folded into the high word as a block is shifted right by one bit, by arithmetic from the bit that leaves the low
// word: 0 for 0, 0xE1 in the top byte for 1. There it is 7 times 0x20 and 1; the bit times 0xE1 would be compiled to a conditional move.
fn folded_constant(lo: u64) -> u64
    ensures { (lo % 2 ≡ 0 → result ≡ 0) × (lo % 2 ≡ 1 → result ≡ 0xe1 * 2 ^ 56) }
{
    let bit = lo << 63;
    7 * (bit >> 2) + (bit >> 7)
}

// v shifted right by one bit, with R added if the bit that left was 1.
fn halve(v: Block) -> Block
    ensures { value result ≡ halved (value v) }
{
    Block {
        hi: (v.hi >> 1) ^ folded_constant(v.lo),
        lo: (v.hi << 63) | (v.lo >> 1),
    }
}

// The steps of the hash subkey h.
pub fn steps(h: Block) -> [u64; 256]
    ensures { Steps (value h) result }
{
    let mut t = [0u64; 256];
    let mut v = h;
    for i in 0..128usize {
        t[2 * i] = v.hi;
        t[2 * i + 1] = v.lo;
        v = halve(v);
    }
    t
}

// Step i.
fn step(t: &[u64; 256], i: usize) -> Block
    requires { i < 128 }
    ensures { value result ≡ words (get_or t.now (2 * i) 0) (get_or t.now (2 * i + 1) 0) }
{
    Block {
        hi: t[2 * i],
        lo: t[2 * i + 1],
    }
}

// z, with v added if the top bit of w is 1: a mask of 64 times that bit chooses.
fn add_if(z: Block, w: u64, v: Block) -> Block
    ensures { value result ≡ add_if (w / 2 ^ 63) (value z) (value v) }
{
    let mask = (w >> 63) * 0xffff_ffff_ffff_ffff;
    Block {
        hi: z.hi ^ (mask & v.hi),
        lo: z.lo ^ (mask & v.lo),
    }
}

// z, the sum of the steps before step `at`, goes on over 64 steps: x has the bits that choose them, the first on top.
fn add_steps(z: Block, x: u64, t: &[u64; 256], at: usize) -> Block
    requires { at ≤ 64 }
    ensures { (y H : ℕ) → Steps H t.now → ((i : ℕ) → i < 64 → x / 2 ^ (63 - i) % 2 ≡ bit y (at + i)) → value z ≡ Zᵢ at y H → value result ≡ Zᵢ (at + 64) y H }
{
    let mut sum = z;
    let mut w = x;
    for i in 0..64usize {
        sum = add_if(sum, w, step(t, at + i));
        w = w << 1;
    }
    sum
}

// The product of x and the hash subkey whose steps t has.
pub fn product(x: Block, t: &[u64; 256]) -> Block
    ensures { (H : ℕ) → Steps H t.now → value result ≡ value x • H }
{
    let first = add_steps(Block { hi: 0, lo: 0 }, x.hi, t, 0);
    add_steps(first, x.lo, t, 64)
}
