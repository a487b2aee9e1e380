// Writes the states of the rings in rings.txt, each of 3 pages of 2 slots, as lines: document 01's bench values M1 to M11 and inputs of other lengths.
// A line of the file that begins with '#' is written as it is; any other is a ring in hexadecimal.
#![tactic(auto)]

use bench_io::read_file;
use hex_digits::decode;
use vectors::until;

const LINE_FEED: u8 = 0x0A;

const LONGEST: usize = 1000;

// Writes the state of the ring whose digits are given.
fn show_ring(rt: &impl Print, digits: &[u8]) {
    let n = digits.len() / 2;
    if n > LONGEST {
        let _ = rt.write_all(b"too long\n");
        return;
    }
    let mut bytes = [0u8; 1000];
    decode(digits, n, &mut bytes);
    let line = ring_line::ring_line(&bytes[..n], 3, 2);
    let text = line.bytes;
    let length = line.length;
    let _ = rt.write_all(&text[..length]);
}

fn show(rt: &impl Print, line: &[u8]) {
    if line.first() == Some(&b'#') {
        let _ = rt.write_all(line);
        let _ = rt.write_all(b"\n");
        return;
    }
    show_ring(rt, line);
}

fn show_lines(rt: &impl Print, s: &[u8]) {
    for line in s.split_inclusive(|c| *c <= LINE_FEED) {
        let n = until(line, LINE_FEED);
        show(rt, &line[..n]);
    }
}

fn main(rt: HostRuntime) {
    let mut text = [0u8; 65_536];
    if let Some(n) = read_file(&rt, b"rings.txt", &mut text) {
        show_lines(&rt, &text[..n]);
    }
}
