// Runs NIST's known answers for AES-128 and AES-256 and FIPS 197's worked examples of the two, and says how many agree.
// A line of a file is key, text and cipher in hexadecimal; one that begins with '#' is a comment.
#![tactic(auto)]

use bench_io::{Console, read_file};
use hex_digits::decode;
use std::fs::Files;
use vectors::cut;

const LINE_FEED: u8 = 0x0A;

const SPACE: u8 = 0x20;

// The block whose digits a field has.
fn block(field: &[u8]) -> [u8; 16] {
    let mut out = [0u8; 16];
    if field.len() == 32 {
        decode(field, 16, &mut out);
    }
    out
}

// The text under a key of 16 bytes or 32, and zeros under any other.
fn encrypted(key: &[u8], text: [u8; 16]) -> [u8; 16] {
    if (key.len() == 16) | (key.len() == 32) {
        aes::encrypt(key, text)
    } else {
        [0u8; 16]
    }
}

// Whether the text under the key is the cipher.
fn agrees(key: &[u8], text: &[u8], cipher: &[u8]) -> bool {
    let n = key.len() / 2;
    if n > 32 {
        return false;
    }
    let mut bytes = [0u8; 32];
    decode(key, n, &mut bytes);
    let want = block(cipher);
    let got = encrypted(&bytes[..n], block(text));
    octets::same(&got, &want)
}

// Whether a line's vector agrees. What stands behind the second space counts as one field.
fn line_agrees(line: &[u8]) -> bool {
    let (key, rest) = cut(line, SPACE);
    let (text, cipher) = cut(rest, SPACE);
    agrees(key, text, cipher)
}

// Whether a line is a vector, and neither empty nor a comment.
fn is_vector(line: &[u8]) -> bool {
    matches!(line.first(), Some(b) if *b != b'#')
}

// Prints how many vectors of a file, which is at most 65,536 bytes long, agree.
fn run<R: Console + Files>(rt: &R, path: &[u8], name: &str) {
    let mut text = [0u8; 65_536];
    let Some(n) = read_file(rt, path, &mut text) else {
        return;
    };
    let mut all: u32 = 0;
    let mut agree: u32 = 0;
    for piece in text[..n].split_inclusive(|b| *b <= LINE_FEED) {
        let line = cut(piece, LINE_FEED).0;
        if is_vector(line) {
            all = all.wrapping_add(1);
            if line_agrees(line) {
                agree = agree.wrapping_add(1);
            }
        }
    }
    let _ = println!(rt; "{agree} of {all}{name} agree");
}

fn main(rt: HostRuntime) {
    run(&rt, b"aes128.txt", " known answers of NIST for AES-128");
    run(&rt, b"aes256.txt", " known answers of NIST for AES-256");
    run(&rt, b"fips197.txt", " worked examples of FIPS 197");
}
