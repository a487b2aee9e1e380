// Reads standard input as a ring of 3 pages of 2 slots and writes its state as one line (document 01, "Bench values").
#![tactic(auto)]

use bench_io::read_full;

fn main(rt: HostRuntime) {
    // One byte more than such a ring has shows an input that is too long.
    let mut input = [0u8; 97];
    let n = read_full(&mut rt.reader(), &mut input);
    let line = ring_line::ring_line(&input[..n], 3, 2);
    let bytes = line.bytes;
    let length = line.length;
    let _ = rt.write_all(&bytes[..length]);
}
