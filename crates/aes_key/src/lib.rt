// The key expansion. A word is four bytes, and the schedule's words stand one after the other in 240 bytes, those past its end 0.
#![tactic(auto)]

ghost use Rattle.std.specs.Prelude.{◌≡◌, ◌+◌, ◌-◌, ◌*◌, ◌/◌, ◌<◌, ◌≤◌, length};
ghost use Rattle.std.proofs.lemmas.List.Edits.{sets};
ghost use Rattle.octets.specs.Table.{table};
ghost use Rattle.sbox.specs.Field.{sub_byte};
ghost use Rattle.aes_key.specs.Key.{word, sub_word, x_power, temp, next_word, Nr, round_keys, KeyLength};

use octets::copy_at;
use sbox::{sbox, sub_byte};

const RCON: [u8; 10] = [0x01, 0x02, 0x04, 0x08, 0x10, 0x20, 0x40, 0x80, 0x1b, 0x36];

// The first byte of Rcon[j]; its others are 0.
fn rcon(j: usize) -> u8
    requires { (0 < j) × (j ≤ 10) }
    ensures { result ≡ x_power (j - 1) }
{
    RCON[j - 1]
}

fn sub_word(sbox: &[u8; 256], u: [u8; 4]) -> [u8; 4]
    requires { sbox.now ≡ table 256 sub_byte }
    ensures { result ≡ sub_word u }
{
    [
        sub_byte(sbox, u[0]),
        sub_byte(sbox, u[1]),
        sub_byte(sbox, u[2]),
        sub_byte(sbox, u[3]),
    ]
}

// What w[i] adds to w[i - nk], of u = w[i - 1].
fn temp(sbox: &[u8; 256], nk: usize, i: usize, u: [u8; 4]) -> [u8; 4]
    requires { (sbox.now ≡ table 256 sub_byte) × (0 < nk) × (nk ≤ i) × (i < 11 * nk) }
    ensures { result ≡ temp nk i u }
{
    let m = i % nk;
    if m == 0 {
        let v = sub_word(sbox, [u[1], u[2], u[3], u[0]]);
        return [v[0] ^ rcon(i / nk), v[1], v[2], v[3]];
    }
    if 6 < nk {
        if m == 4 {
            return sub_word(sbox, u);
        }
    }
    u
}

// Word i of a schedule or of a key.
fn word(w: &[u8], i: usize) -> [u8; 4]
    requires { 4 * i + 4 ≤ length w.now }
    ensures { result ≡ word w.now i }
{
    let p = 4 * i;
    [w[p], w[p + 1], w[p + 2], w[p + 3]]
}

fn put_word(w: &mut [u8; 240], i: usize, u: [u8; 4])
    requires { i < 60 }
    ensures { w.new ≡ sets w.old (4 * i) u }
{
    copy_at(&u, w, 4 * i);
}

// w[i]: a word of the key, or one made of the words before it.
fn next_word(sbox: &[u8; 256], key: &[u8], w: &[u8], nk: usize, i: usize) -> [u8; 4]
    requires { (sbox.now ≡ table 256 sub_byte) × (0 < nk) × (length key.now ≡ 4 * nk) × (i < 11 * nk) × (4 * i ≤ length w.now) }
    ensures { result ≡ next_word nk key.now w.now i }
{
    if i < nk {
        return word(key, i);
    }
    let u = word(w, i - nk);
    let v = temp(sbox, nk, i, word(w, i - 1));
    [u[0] ^ v[0], u[1] ^ v[1], u[2] ^ v[2], u[3] ^ v[3]]
}

// The rounds, Nr, under a key of so many bytes.
pub fn rounds(key: usize) -> usize
    ensures { result ≡ Nr (key / 4) }
{
    key / 4 + 6
}

// The key schedule of a key of 16 or 32 bytes.
pub fn expand_key(key: &[u8]) -> [u8; 240]
    requires { KeyLength (length key.now) }
    ensures { result ≡ round_keys key.now }
{
    let sbox = sbox();
    let nk = key.len() / 4;
    let mut w = [0u8; 240];
    // Word i is made of the words before it, and put behind them.
    for i in 0..4 * nk + 28 {
        let u = next_word(&sbox, key, &w, nk, i);
        put_word(&mut w, i, u);
    }
    w
}
